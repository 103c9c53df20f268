// D's table at −x is the mirror image of its table at x.

#![tactic(auto)]

ghost use Rattle.table_mirror.specs.Mirror.{MirrorCheck};

// The theorem about D's tables at x and at −x. The statement is specs/Mirror.antt, the proof proofs/Tables.antt.
pub fn mirror_check()
    ensures { MirrorCheck }
{}
