// Which case a reply is.

ghost use Rattle.std.specs.Prelude.{◌≡◌};
ghost use Rattle.gozhnerim_told.specs.Cases.{case_in};

use gozhnerim_structs::GozhnerimReply;

// 0 with a refusal, 1 a repeat, 2 a climb, 3 a start-over. The C interface hands the case over as a number.
#[tactic(auto, using(std::proofs::lemmas::Bool::Decides::nat_tests), unfolding(crate::specs::Cases::case_in))]
pub fn case_of(r: GozhnerimReply) -> u32
    ensures { result ≡ case_in r }
{
    if r.refusal != 0 {
        0
    } else if r.written == 0 {
        1
    } else if r.written <= r.ladder.n {
        2
    } else {
        3
    }
}
