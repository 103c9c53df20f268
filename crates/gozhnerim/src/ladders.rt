// The ladder's requests. D and V have a name each, as include/gozhnerim.h declares them.

ghost use Rattle.std.specs.Prelude.{◌≡◌};
ghost use Rattle.floats.specs.declared.Function.TheVariants.{D, «V»};
ghost use Rattle.ladder_machine.specs.Machine.{asks};
ghost use Rattle.gozhnerim_lists.specs.Requests.{requested_in_c};

use floats::Function;
use gozhnerim_lists::request_in_c;
use gozhnerim_structs::{GozhnerimLadder, GozhnerimReply};
use ladder_machine::Request;

#[unsafe(no_mangle)]
pub extern "C" fn gozhnerim_ladder_d(
    held: GozhnerimLadder,
    v: f64,
    x: f64,
    values: &mut [f64],
    derivatives: &mut [f64],
) -> GozhnerimReply
    ensures reply { result ≡ (requested_in_c held (asks D v x) values.old derivatives.old).reply }
    ensures values { values.new ≡ (requested_in_c held (asks D v x) values.old derivatives.old).values }
    ensures derivatives { derivatives.new
        ≡ (requested_in_c held (asks D v x) values.old derivatives.old).derivatives }
{
    let request = Request {
        function: Function::D,
        v,
        x,
    };
    request_in_c(held, request, values, derivatives)
}

#[unsafe(no_mangle)]
pub extern "C" fn gozhnerim_ladder_v(
    held: GozhnerimLadder,
    v: f64,
    x: f64,
    values: &mut [f64],
    derivatives: &mut [f64],
) -> GozhnerimReply
    ensures reply { result ≡ (requested_in_c held (asks «V» v x) values.old derivatives.old).reply }
    ensures values { values.new ≡ (requested_in_c held (asks «V» v x) values.old derivatives.old).values }
    ensures derivatives { derivatives.new
        ≡ (requested_in_c held (asks «V» v x) values.old derivatives.old).derivatives }
{
    let request = Request {
        function: Function::V,
        v,
        x,
    };
    request_in_c(held, request, values, derivatives)
}
