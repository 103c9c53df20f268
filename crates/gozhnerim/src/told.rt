// What the interface tells of itself, of an order and of a reply.

ghost use Rattle.std.specs.Prelude.{◌≡◌};
ghost use Rattle.gozhnerim_told.specs.Orders.{order_in};
ghost use Rattle.gozhnerim_told.specs.Cases.{case_in};
ghost use Rattle.gozhnerim.specs.Version.{version};

use gozhnerim_structs::GozhnerimReply;
use gozhnerim_told::{GozhnerimOrder, case_of, order_of};

#[tactic(auto, unfolding(crate::specs::Version::version))]
#[unsafe(no_mangle)]
pub extern "C" fn gozhnerim_version() -> u32
    ensures { result ≡ version }
{
    300
}

#[unsafe(no_mangle)]
pub extern "C" fn gozhnerim_split(v: f64) -> GozhnerimOrder
    ensures { result ≡ order_in v }
{
    order_of(v)
}

#[unsafe(no_mangle)]
pub extern "C" fn gozhnerim_case(reply: GozhnerimReply) -> u32
    ensures { result ≡ case_in reply }
{
    case_of(reply)
}
