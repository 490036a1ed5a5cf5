// Rows left out, and catalogues queried apart (SPECIFICATION, "Leaving out rows"): of the definitions that the calls'
// contracts cite, for whatever table, term, rows and group byte Query takes, plain or grouped; and of any strict relation
// and any number of rows, which is what more rows than a query takes would rest on. The crate `demands` says it of the calls.
ghost use Rattle.std.specs.Prelude.{◌≡◌, Bool, true, false, not, List, ◌++◌, ℕ, ◌+◌, ◌%◌, ◌<◌, ◌≤◌, eqb, ℤ, length};
ghost use Rattle.model.specs.Search.{any_in};
ghost use Rattle.model.specs.Term.{term_at};
ghost use Rattle.model.specs.Better.{Row};
ghost use Rattle.model.specs.Query.{kept, row_count};
ghost use Rattle.model.specs.Demand.{keeps};
ghost use Rattle.model.specs.Leaving.{left_rows, kept_rows};
ghost use Rattle.laws.specs.Order.{Strict};
ghost use Rattle.laws.specs.Leaving.{rows_of_all, kept_in_own};
ghost use Rattle.laws.specs.Merged.{worse_in};
ghost use Rattle.laws.specs.Catalogues.{kept_of_run, joined, kept_of_each_run};
ghost use Rattle.theorems.specs.Asked.{Asked, Long};
ghost use Rattle.theorems.specs.LeftOut.{SameAnswers, SameAnswersOf, together, kept_apart};

// "Take out some or all of the dropped rows, in plain or grouped queries, and the same rows are kept and each remaining
// dropped row names the same better row": whichever rows stay, as long as every kept row does.
pub fn leaving_out()
    ensures { (table : List ℕ) (columns : ℕ) (rows : List ℤ) (term group : ℕ)
        → Asked table columns rows term group → (stays : ℕ → Bool) (a b : List ℕ)
        → Long columns rows a → Long columns (left_rows columns rows stays) b
        → ((i : ℕ) → i < row_count columns rows → keeps table columns rows term group a i ≡ true → stays i ≡ true)
        → SameAnswers table columns rows term group stays a b }
{}

// "Querying two catalogues separately and then their kept rows together keeps what one query over both does, provided both
// together have at most 1,024 rows": the same rows in their order; and by numbers, the kept rows together being what is left
// of both when each row dropped from its own is left out.
pub fn merged_keeps()
    ensures { (table : List ℕ) (columns : ℕ) (first second : List ℤ) (term group : ℕ)
        → Asked table columns first term group → Asked table columns second term group
        → row_count columns first + row_count columns second ≤ 1024
        → (p q : List ℕ) → Long columns first p → Long columns second q
        → (a b : List ℕ) → Long columns (first ++ second) a
        → Long columns (together table columns first second term group p q) b
        → Asked table columns (first ++ second) term group
        × (kept_rows table columns (together table columns first second term group p q) term group b
        ≡ kept_rows table columns (first ++ second) term group a)
        × (together table columns first second term group p q
        ≡ left_rows columns (first ++ second) (kept_apart table columns first second term group p q))
        × SameAnswers table columns (first ++ second) term group
        (kept_apart table columns first second term group p q) a b }
{}

// `leaving_out` for any number of rows and any strict relation between them.
pub fn leaving_out_any()
    ensures { (n : ℕ) (beats : ℕ → ℕ → Bool) → Strict beats → (stays : ℕ → Bool)
        → ((k : ℕ) → k < n → kept n beats k ≡ true → stays k ≡ true) → SameAnswersOf n beats stays }
{}

// `merged_keeps` for any number of catalogues, each of any number of rows: by numbers, and as runs of whole rows, for any
// strict relation.
pub fn merged_any()
    ensures { ((catalogues : List ℕ) (beats : ℕ → ℕ → Bool) → Strict beats
        → ((k : ℕ) → k < rows_of_all catalogues → kept (rows_of_all catalogues) beats k ≡ true
        → kept_in_own catalogues beats k ≡ true)
        × SameAnswersOf (rows_of_all catalogues) beats (kept_in_own catalogues beats))
        × ((columns : ℕ) → 1 ≤ columns → (worse : Row → Row → Bool) → Strict worse → (catalogues : List (List ℤ))
        → any_in catalogues (λ rows. not (eqb (length rows % columns) 0)) ≡ false
        → kept_of_run worse columns (kept_of_each_run worse columns catalogues) ≡ kept_of_run worse columns (joined catalogues)) }
{}

// Such a relation is the term's order of rows in a group (`worse_in`): Query keeps the rows that none betters by it, which
// `merged_any` speaks of.
pub fn kept_rows_by_order()
    ensures { (table : List ℕ) (columns : ℕ) (rows : List ℤ) (term group : ℕ)
        → Asked table columns rows term group → (before : List ℕ) → Long columns rows before
        → Strict (worse_in (term_at table term) group)
        × (kept_rows table columns rows term group before ≡ kept_of_run (worse_in (term_at table term) group) columns rows) }
{}
