//! Laws of what a state asks for and of one step, for readers who know neither by their
//! definitions.

ghost use Rattle.std.specs.Prelude.{◌≡◌, ◌<◌, ◌↔◌, ◌++◌, ℕ, Bool, true};
ghost use Rattle.std.specs.Prelude.{false, List, Some, length};
ghost use Rattle.ick_syntax.specs.declared.kinds.Kind.TheVariants.{WriteIn, ReadOut};
ghost use Rattle.ick_syntax.specs.StatementTree.{StatementTree};
ghost use Rattle.ick_code.specs.meaning.State.{State, Ending};
ghost use Rattle.ick_code.specs.meaning.Move.{ask, plain, choice, ended, advance, first_state};
ghost use Rattle.ick_code.specs.Laws.{after_output, kind_at, IsWithin};

/// States what a state asks for. It asks for a choice only at a chance of 1 to 99 percent. It asks
/// for nothing only if both choices lead to the same state. The answer is an end if and only if the
/// state has that end. The answer depends only on the program counter, the abstained statements and
/// the end (Revised Manual, 4.3, and this profile).
pub fn law_of_asking()
    ensures chance { (program : List StatementTree) (s : State) (n : ℕ) →
        ask program s ≡ choice n → (0 < n) × (n < 100) }
    ensures plain { (program : List StatementTree) (s : State) →
        ask program s ≡ plain → advance program s true ≡ advance program s false }
    ensures ended { (program : List StatementTree) (s : State) (end : Ending) →
        (ask program s ≡ ended end) ↔ (s.end ≡ Some end) }
    ensures rests { (program : List StatementTree) (s t : State) →
        t.place ≡ s.place → t.abstained ≡ s.abstained → t.end ≡ s.end →
        ask program t ≡ ask program s }
{}

/// States how a step changes the output and the input. It neither reads nor changes the earlier
/// output, and only READ OUT appends to it. It removes bytes only from the front of the input, and
/// only WRITE IN does so.
pub fn law_of_output_and_input()
    ensures apart { (program : List StatementTree) (s : State) (chosen : Bool) (o : List ℕ) →
        advance program (after_output o s) chosen ≡ after_output o (advance program s chosen) }
    ensures grows { (program : List StatementTree) (s : State) (chosen : Bool) →
        (more : List ℕ) × ((advance program s chosen).output ≡ s.output ++ more) }
    ensures unwritten { (program : List StatementTree) (s : State) (chosen : Bool) →
        (kind_at program s ≡ Some ReadOut → ⊥) →
        (advance program s chosen).output ≡ s.output }
    ensures taken { (program : List StatementTree) (s : State) (chosen : Bool) →
        (taken : List ℕ) × (s.input ≡ taken ++ (advance program s chosen).input) }
    ensures untaken { (program : List StatementTree) (s : State) (chosen : Bool) →
        (kind_at program s ≡ Some WriteIn → ⊥) →
        (advance program s chosen).input ≡ s.input }
{}

/// States that the program counter and each return address are always the number of a statement or
/// one more than the last, and that there are never more than 79 return addresses (Revised Manual,
/// 4.4.2).
pub fn law_of_places()
    ensures first { (program : List StatementTree) (input : List ℕ) →
        IsWithin (length program) (first_state program input) }
    ensures kept { (program : List StatementTree) (s : State) (chosen : Bool) →
        IsWithin (length program) s → IsWithin (length program) (advance program s chosen) }
{}
