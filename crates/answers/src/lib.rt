// What the entries of the library answer. A call gives its value, or the reason for which it is refused: `Refusal` is the
// specification's table, and each reason knows its number there. A call that changes a set or a ledger gives a `Changed`: the
// answer, with the head as it is afterwards; one that is refused gives no head, so that the caller's own stays what it is.
// Assumes nothing.
#![tactic(auto)]

ghost use Rattle.std.specs.Prelude.{◌≡◌};
ghost use Rattle.answers.specs.Refusals.{number_of};

// Why a call is refused. Two reasons come with a number, and each is of those that give it: 8, with the index of a saved list's bad run, and
// 13, with the position of a sheet that has no edge.
#[derive(Clone, Copy, Debug, PartialEq, Eq)]
pub enum Refusal {
    // The capacity is none that there is, or the journal is longer than any.
    Size = 1,
    // The head's numbers contradict each other.
    Head = 2,
    // The storage or the journal is shorter than the head says.
    Short = 3,
    // The end is above the capacity, or the point is at or above it.
    Outside = 4,
    // No call is left to take back.
    NoCall = 5,
    // The journal has no room for the call.
    JournalFull = 6,
    // The file is no saved list.
    BadFile = 7,
    // The buffer is shorter than what is to be written.
    NoRoom = 9,
    // The two sets' capacities differ.
    OtherCapacity = 10,
    // The scratch is shorter than the call needs.
    ShortScratch = 11,
    // The list of edges is shorter than the capacity.
    FewEdges = 12,
}

impl From<Refusal> for u8 {
    ghost from_gives = { λ refusal number. number ≡ number_of refusal };

    fn from(refusal: Refusal) -> u8 {
        refusal as u8
    }
}

// The answer of a call that changes something, and the head as it is afterwards.
#[derive(Clone, Copy, Debug, PartialEq, Eq)]
pub struct Changed<T, H> {
    pub answer: T,
    pub head: H,
}

impl<T, H: Copy> Changed<T, H> {
    // Where the caller keeps its head in a place of its own: the head goes there, and the answer is given.
    pub fn store(self, head: &mut H) -> T
        ensures answer { result ≡ self.answer }
        ensures head { head.new ≡ self.head }
    {
        *head = self.head;
        self.answer
    }
}
