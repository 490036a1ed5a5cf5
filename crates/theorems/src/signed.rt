// The second and the third signed sentence (SPECIFICATION, "The promises") on bytes, as the specification spells them
// ("The calls", "The third promise, word by word"), for whatever table, term, rows and group byte Query takes. The
// theorems are about the definitions that the calls' contracts cite (`query_buffer` is what both engines write); the
// crate `demands` says it of the calls.
ghost use Rattle.std.specs.Prelude.{◌≡◌, ◌⊎◌, ◌↔◌, true, false, List, ℕ, ◌<◌, ◌≤◌, eqb, ℤ, length, get_or, Ok, Err};
ghost use Rattle.model.specs.declared.Refusal.{Refusal};
ghost use Rattle.model.specs.Search.{count_below};
ghost use Rattle.model.specs.Term.{term_at};
ghost use Rattle.model.specs.Query.{Unbeaten, LowestKept, row_count, beats_in};
ghost use Rattle.model.specs.Query.{query_verdict, query_reply, query_buffer};
ghost use Rattle.model.specs.Demand.{left_first, right_first, equally, keeps};
ghost use Rattle.laws.specs.Taken.{Taken};
ghost use Rattle.theorems.specs.Asked.{Asked, TwoParts};
ghost use Rattle.theorems.specs.ThirdSentence.{Wrote, Keeps, ThirdSentence, Answers, PartsAnswer};

// ---- the second signed sentence

// Query refuses nothing exactly when the table is accepted, the number is a term record, and the rows, the group byte and
// the buffer fit.
pub fn query_takes()
    ensures { (table : List ℕ) (columns : ℕ) (rows : List ℤ) (term group : ℕ) (before : List ℕ)
        → (query_verdict table columns rows term group before ≡ Ok tt)
        ↔ Taken table columns rows term group before }
{}

// "A row is kept when no row of the set is better, and only then."
pub fn keeps_is_unbeaten()
    ensures { (table : List ℕ) (columns : ℕ) (rows : List ℤ) (k group : ℕ) (before : List ℕ)
        → query_verdict table columns rows k group before ≡ Ok tt → (i : ℕ) → i < row_count columns rows
        → (keeps table columns rows k group before i ≡ true)
        ↔ Unbeaten (row_count columns rows) (beats_in (term_at table k) columns rows group) i }
{}

// "Every dropped row names the lowest-numbered kept row that is better."
pub fn drops_name_lowest()
    ensures { (table : List ℕ) (columns : ℕ) (rows : List ℤ) (k group : ℕ) (before : List ℕ)
        → query_verdict table columns rows k group before ≡ Ok tt
        → (i d : ℕ) → i < row_count columns rows → keeps table columns rows k group before i ≡ false
        → LowestKept (row_count columns rows) (beats_in (term_at table k) columns rows group) i
        (get_or (query_buffer table columns rows k group before) i d) }
{}

// The kept count "equals the number of rows whose entry holds their own number". "Entries after the last row keep their
// contents."
pub fn gives_and_writes()
    ensures { (table : List ℕ) (columns : ℕ) (rows : List ℤ) (k group : ℕ) (before : List ℕ)
        → query_verdict table columns rows k group before ≡ Ok tt → (d : ℕ)
        → (query_reply table columns rows k group before
        ≡ Ok (count_below (row_count columns rows)
        (λ i. eqb (get_or (query_buffer table columns rows k group before) i d) i)))
        × (length (query_buffer table columns rows k group before) ≡ length before)
        × ((i : ℕ) → row_count columns rows ≤ i
        → get_or (query_buffer table columns rows k group before) i d ≡ get_or before i d) }
{}

// "No refusal writes anything."
pub fn refusal_writes_nothing()
    ensures { (table : List ℕ) (columns : ℕ) (rows : List ℤ) (term group : ℕ) (before : List ℕ) (why : Refusal)
        → query_verdict table columns rows term group before ≡ Err why
        → query_buffer table columns rows term group before ≡ before }
{}

// ---- the third signed sentence

// "Take whatever table the check accepts, any of its terms, whatever rows and whichever grouping": the whole sentence,
// its clauses in their order in `ThirdSentence` (specs/ThirdSentence).
pub fn third_sentence()
    ensures { (table : List ℕ) (columns : ℕ) (rows : List ℤ) (term group : ℕ)
        → Asked table columns rows term group → ThirdSentence table columns rows term group }
{}

// None of the queries that it speaks of is refused, "with answer buffers long enough".
pub fn query_refuses_none()
    ensures { (table : List ℕ) (columns : ℕ) (rows : List ℤ) (term group : ℕ)
        → Asked table columns rows term group → Answers table columns rows term group
        × (TwoParts table term → PartsAnswer table columns rows term group) }
{}

// "Or when it is beaten under both placings but by no single row of the set under both": without this clause the
// sentence is false, by the specification's rows (1,5) (5,1) (3,3).
pub fn third_clause_needed()
    ensures { ((table : List ℕ) (columns : ℕ) (rows : List ℤ) (k group : ℕ) → Asked table columns rows k group
        → TwoParts table k → (a b c : List ℕ) → Wrote (equally table k) columns rows k group a
        → Wrote (left_first table k) columns rows k group b → Wrote (right_first table k) columns rows k group c
        → (i : ℕ) → i < row_count columns rows → Keeps a i ↔ (Keeps b i ⊎ Keeps c i))
        → ⊥ }
{}
