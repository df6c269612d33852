// The refusal numbers of document 01, the definitions of specs/ that give the document's number for each refusal and its values for each
// answer, and the laws that every call's proof cites. No call's own rows stand here.
#![tactic(auto)]

ghost use Rattle.std.specs.Prelude.{◌≡◌};
ghost use Rattle.refusal.specs.Answers.{number_of};

// A refusal: the row of document 01's table that is given.
#[derive(Clone, Copy, Debug, PartialEq, Eq)]
pub enum Refusal {
    // 1: the work area is too short
    Area,
    // 2: the length of the model file
    Length,
    // 3: some block's check
    Check,
    // 4: a byte, field or the number of blocks breaks the layout
    Layout,
    // 5: the row of some state does not add up to D
    Rows,
    // 6: the text is not in the grammar, or no text spells the record
    Grammar,
    // 7: a number or a variable is out of its range
    Range,
    // 8: the text has over 64 nodes
    Nodes,
    // 9: a label letter is not below A
    Label,
    // 10: the size rule
    Size,
    // 11: there are over 1,024 tuples
    Tuples,
    // 12: the grouping's length or numbers
    Grouping,
    // 13: two states of a group are not alike
    Alike,
    // 14: the output is too short
    Room,
    // 15: the tuple, or no such path formula
    Asked,
}

// The document's number of a refusal.
impl From<Refusal> for u8 {
    ghost from_gives = { λ r n. n ≡ number_of r };

    fn from(r: Refusal) -> u8 {
        match r {
            Refusal::Area => 1,
            Refusal::Length => 2,
            Refusal::Check => 3,
            Refusal::Layout => 4,
            Refusal::Rows => 5,
            Refusal::Grammar => 6,
            Refusal::Range => 7,
            Refusal::Nodes => 8,
            Refusal::Label => 9,
            Refusal::Size => 10,
            Refusal::Tuples => 11,
            Refusal::Grouping => 12,
            Refusal::Alike => 13,
            Refusal::Room => 14,
            Refusal::Asked => 15,
        }
    }
}
