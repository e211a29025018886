// The laws of the meaning, which every volume has.
ghost use Rattle.volume.specs.Laws.{VolumeLaws};

// Nothing to run: the contract is the statement.
pub fn volume_laws_hold()
    ensures { VolumeLaws }
{}
