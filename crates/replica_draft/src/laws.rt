//! Laws of letters. Each is the contract of a function that does nothing.
ghost use Rattle.std.specs.Prelude.{◌≡◌, List};
ghost use Rattle.step_spec.specs.Act.{Act};
ghost use Rattle.step_spec.specs.State.{Identity};
ghost use Rattle.step_spec.specs.declared.out.OutLetter.{OutLetter};
ghost use Rattle.replica_draft.specs.Letters.{AreLettersFrom};

/// What a replica does settles its letters, byte for byte.
pub fn acts_have_one_list_of_letters()
    ensures { (self : Identity) (acts : List Act) (letters others : List OutLetter) → AreLettersFrom self acts letters
        → AreLettersFrom self acts others → letters ≡ others }
{}
