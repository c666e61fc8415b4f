// The theorems of this room: there is one list of edges, and its edges are those that role facts make.
ghost use Rattle.std.specs.Prelude.{ℕ, List};
ghost use Rattle.kinds.specs.declared.Counts.{Counts};
ghost use Rattle.meaning.specs.Collection.{WellFormed};
ghost use Rattle.meaning.specs.Lent.{Tables, collection};
ghost use Rattle.edges.specs.Meant.{OneList, ListMeans, SelfFactMeans, EdgeMeans, ModelEdgeMeans};

/// Only one list satisfies the facts that its type carries.
pub fn unique()
    ensures one_list { (facts : List ℕ) (roles : ℕ) → OneList facts roles }
{}

/// The edges at an individual are those that facts make there, two for a fact from it to itself; of a collection, they are the edges of its model.
pub fn meant()
    ensures list_means { (facts : List ℕ) → ListMeans facts }
    ensures self_fact_means { (facts : List ℕ) → SelfFactMeans facts }
    ensures edge_means { (c : Counts) (t : Tables) → EdgeMeans c t }
    ensures model_edge_means { (c : Counts) (t : Tables) → WellFormed (collection c t)
        → ModelEdgeMeans c t }
{}
