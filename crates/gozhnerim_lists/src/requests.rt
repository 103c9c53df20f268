// A ladder's request, with a state and a reply of C.

ghost use Rattle.std.specs.Prelude.{◌≡◌};
ghost use Rattle.gozhnerim_lists.specs.Requests.{requested_in_c};

use gozhnerim_structs::{GozhnerimLadder, GozhnerimReply, reply_of};
use ladder_machine::Request;
use ladder_states::Ladder;

// A request for D or V on the state `held`.
pub fn request_in_c(
    held: GozhnerimLadder,
    request: Request,
    values: &mut [f64],
    derivatives: &mut [f64],
) -> GozhnerimReply
    ensures reply { result ≡ (requested_in_c held request values.old derivatives.old).reply }
    ensures values { values.new
        ≡ (requested_in_c held request values.old derivatives.old).values }
    ensures derivatives { derivatives.new
        ≡ (requested_in_c held request values.old derivatives.old).derivatives }
{
    let reply = ladder::request(Ladder::from(held), request, values, derivatives);
    reply_of(held, reply)
}
