// The laws of reading a line. Each stands in the contract of a function that does nothing.
ghost use Rattle.frames.specs.Laws.{FaultsAreFirst, FrontDecides, TextsReadBack};

// Of every line that is no frame: some frame begins with what stands before the fault, and none with that and the
// character there, unless the line ends there.
pub fn faults_are_first()
    ensures { FaultsAreFirst }
{}

// A frame's own text reads as that frame.
pub fn texts_read_back()
    ensures { TextsReadBack }
{}

// The first 125 characters of a line decide what it reads as, value and place alike.
pub fn front_decides()
    ensures { FrontDecides }
{}
