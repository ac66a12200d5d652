ghost use Rattle.paxos_letter.specs.Copies.{CopiesAreLetters};
ghost use Rattle.paxos_letter.specs.Letters.{LettersDiffer, LettersHavePackets, LettersBreakNoRule};

/// A law, with nothing to run: no two letters to as many replicas have the same bytes.
pub fn letters_differ_in_their_bytes()
    ensures { LettersDiffer }
{}

/// A law, with nothing to run: a letter has one packet or more, of 56 bytes each.
pub fn letters_have_packets()
    ensures { LettersHavePackets }
{}

/// A law, with nothing to run: packets whose numbers fit are a letter exactly where their spelling breaks no rule.
pub fn letters_break_no_rule()
    ensures { LettersBreakNoRule }
{}

/// A law, with nothing to run: the rows of a launch table may be sent as they are.
pub fn copies_are_letters()
    ensures { CopiesAreLetters }
{}
