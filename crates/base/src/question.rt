// The questions that are put to what is handed in.
ghost use Rattle.std.specs.Prelude.{◌≡◌};
ghost use Rattle.base.specs.Questions.{number_of};

// A refusal names the first question that was answered no.
#[derive(Clone, Copy, Debug, PartialEq, Eq)]
pub enum Question {
    // Do the bytes from here on have a line end, 0x0A?
    LineEnds = 1,
    // Are the line's first bytes a key that is due here, and `=`?
    KeyDue = 2,
    // Is the value well formed: one number, or a list, whichever this key has?
    ValueFormed = 3,
    // Does every number lie in its range?
    NumberInRange = 4,
    // Has the list at most its greatest number of entries?
    ListWithinLength = 5,
    // Where the list must ascend, is each number greater than the one before it?
    ListAscends = 6,
    // Are there no bytes after the last line?
    FileEnds = 7,
    // Does the plan text give the number of the loaded problem as its `shop`?
    SameProblem = 8,
    // Has the slice room for all entries?
    SliceLongEnough = 9,
    // Does the level limit lie between 1 and 32, both included?
    LevelLimitInRange = 10,
    // Does the row limit lie between 1 and 2,000, both included?
    RowLimitInRange = 11,
    // Has the state at least as many facts as the problem?
    StateLargeEnough = 12,
    // Does k, the number of trials allowed, lie between 1 and 60,000, both included?
    TrialsInRange = 13,
    // Has no try of this search answered `NoneLeft`?
    NotExhausted = 14,
    // Was `Found` the answer of the last accepted try?
    LastTryFound = 15,
    // When this row's turn comes, is some task still open?
    TaskOpen = 16,
    // Is the first open task the row's operator, or the `for` of the row's method?
    RowForTask = 17,
    // Do the conditions of the row's operator or method hold?
    ConditionsHold = 18,
    // Is the row a `do` row, or its `sub` empty, or the task's level below the level limit?
    LevelRight = 19,
    // Do at least as many rows follow as tasks are open?
    OpenWithinRows = 20,
    // Is the number of rows at most the row limit?
    WithinRowLimit = 21,
    // Has the slice for bytes room for the whole text?
    TextFits = 22,
    // Is there a `do` row at or after the walk's place?
    WalkNotOver = 23,
    // Is the fact's number smaller than the state's size?
    FactWithinState = 24,
}

impl Question {
    // The number by which a refusal is known: the one written above.
    pub fn number(self) -> u8
        ensures { result ≡ number_of self }
    {
        self as u8
    }
}
