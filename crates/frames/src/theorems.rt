// The laws of a line's frame, and of a frame's line. The functions here have nothing to do: their clauses are the laws.
ghost use Rattle.frames.specs.Laws.{FrameOnce, KindNamed, LineIsRead, ReadFits, LineIsWritten, ListedIsWritten, NumbersTell, LineEnds, LineShort};

pub fn frame()
    ensures once { FrameOnce }
{}

pub fn kind()
    ensures named { KindNamed }
{}

pub fn line()
    ensures read { LineIsRead }
    ensures fits { ReadFits }
    ensures written { LineIsWritten }
    ensures listed { ListedIsWritten }
    ensures numbers { NumbersTell }
    ensures ends { LineEnds }
    ensures short { LineShort }
{}
