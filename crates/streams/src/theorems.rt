// The law of reading an input line by line. The function here has nothing to do: its clause is the law.
ghost use Rattle.streams.specs.Laws.{NextOnce};

pub fn next_line()
    ensures once { NextOnce }
{}
