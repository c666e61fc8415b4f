// The theorems of this room: each call gives one outcome, every number and every byte; and of the areas moved.
ghost use Rattle.std.specs.Prelude.{◌≡◌, ℕ, List};
ghost use Rattle.kinds.specs.declared.Counts.{Counts};
ghost use Rattle.laws.specs.Once.{AtMostOne};
ghost use Rattle.meaning.specs.Lent.{Call, Tables};
ghost use Rattle.index.specs.Preparation.{Preparation};
ghost use Rattle.lampsaffron.specs.Boundary.{Gives};
ghost use Rattle.lampsaffron.specs.Row.{TellsRow};
ghost use Rattle.lampsaffron.specs.Asks.{Left, TellsAsks};
ghost use Rattle.lampsaffron.specs.Expression.{Makes, Rows, TellsTables};
ghost use Rattle.lampsaffron.specs.Marks.{Lent, TellsMarks};
ghost use Rattle.lampsaffron.specs.Same.{SameNumber};
ghost use Rattle.lampsaffron.specs.Listing.{Left as ListLeft, TellsListing};
ghost use Rattle.lampsaffron.specs.Departs.{TellsDeparture, AcceptedIsGiven};
ghost use Rattle.lampsaffron.specs.Salvage.{TellsSalvage};
ghost use Rattle.lampsaffron.specs.Areas.{TellsMoved, TellsBack};
ghost use Rattle.lampsaffron.specs.Areas.{ThereAndBack, BackAndThere};
ghost use Rattle.lampsaffron.specs.Areas.{RoundsMoved, RoundsMovedBack};
ghost use Rattle.expression.specs.Listed.{Listed};
ghost use Rattle.expression.specs.Answer.{IsAutomatonOf};

// What each call gives and leaves: of one ask, of a row of pairs, of a row of asks, of the marks of rounds, of the tables
// of an expression, of two collections compared, of the list of a sheet and of where another departs from it, of the facts
// that salvage keeps, and of an area moved and moved back. Of an expression also the number alone, and the automaton.
pub fn unique()
    ensures one_call { (c : Call) (number number' count count' : ℕ) (x y u v : List ℕ)
        → Gives c number count x y → Gives c number' count' u v
        → (number ≡ number') × (count ≡ count') × (x ≡ u) × (y ≡ v) }
    ensures one_row { (p : Preparation) (t area spare : List ℕ)
        (numbers numbers' counts counts' x y u v : List ℕ)
        → TellsRow p t area spare numbers counts x y
        → TellsRow p t area spare numbers' counts' u v
        → (numbers ≡ numbers') × (counts ≡ counts') × (x ≡ u) × (y ≡ v) }
    ensures one_asking { (p : Preparation) (asks : List ℕ) (old new new' : Left)
        (number number' : ℕ)
        → TellsAsks p asks old number new → TellsAsks p asks old number' new'
        → (number ≡ number') × (new ≡ new') }
    ensures one_marking { (p : Preparation) (old new new' : Lent) (number number' : ℕ)
        → TellsMarks p old number new → TellsMarks p old number' new'
        → (number ≡ number') × (new ≡ new') }
    ensures one_making { (row : List ℕ) (old new new' : Rows) (number number' : ℕ)
        → TellsTables row old number new → TellsTables row old number' new'
        → (number ≡ number') × (new ≡ new') }
    ensures one_comparing { (c : Counts) (t : Tables) (d : Counts) (u : Tables)
        → AtMostOne (SameNumber c t d u) }
    ensures one_giving { (c : Counts) (t : Tables) (old new new' : ListLeft) (number number' : ℕ)
        → TellsListing c t old number new → TellsListing c t old number' new'
        → (number ≡ number') × (new ≡ new') }
    ensures one_departing { (c : Counts) (t : Tables) (list : List ℕ)
        (old new new' number number' : ℕ) → TellsDeparture c t list old number new
        → TellsDeparture c t list old number' new' → (number ≡ number') × (new ≡ new') }
    ensures one_salvaging { (c : Counts) (t : Tables) (order old new new' : List ℕ)
        (number number' : ℕ) → TellsSalvage c t order old number new
        → TellsSalvage c t order old number' new' → (number ≡ number') × (new ≡ new') }
    ensures one_moving { (stored old new new' : List ℕ) (number number' : ℕ)
        → TellsMoved stored old number new → TellsMoved stored old number' new'
        → (number ≡ number') × (new ≡ new') }
    ensures one_moving_back { (area old new new' : List ℕ) (number number' : ℕ)
        → TellsBack area old number new → TellsBack area old number' new'
        → (number ≡ number') × (new ≡ new') }
    ensures one_number { (row : List ℕ) (steps finals n m : ℕ)
        → Makes row steps finals n → Makes row steps finals m → n ≡ m }
    ensures one_automaton { (row : List ℕ) (a b : Listed)
        → IsAutomatonOf row a → IsAutomatonOf row b → a ≡ b }
{}

// Of lists: the one call accepts what the other gives, and nothing else.
pub fn listed()
    ensures accepted_is_given { AcceptedIsGiven }
{}

// Of areas moved: each of the two calls undoes the other, and what holds the sheet of a collection after a round holds it
// after either.
pub fn moved()
    ensures there_and_back { ThereAndBack }
    ensures back_and_there { BackAndThere }
    ensures rounds_moved { RoundsMoved }
    ensures rounds_moved_back { RoundsMovedBack }
{}
