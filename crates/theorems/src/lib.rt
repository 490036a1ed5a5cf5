// What is proved of the definitions of `model`: that they mean their sentences, and two sentences of SPECIFICATION,
// "The calls". Each function does nothing: its `ensures` is a theorem. What is in quotation marks is a sentence of the
// signed ones or of the specification. `signed` has the second and the third signed sentence, `parts` the parts of the
// third, `leaving` what is said of rows left out.
#![tactic(auto)]

ghost use Rattle.std.specs.Prelude.{◌≡◌, ◌↔◌, Bool, true, List, ℕ, ◌<◌, ℤ, length};
ghost use Rattle.model.specs.Words.{CheckReply, CompareReply, QueryReply, PerfectReply};
ghost use Rattle.model.specs.declared.{Value.Value, Refusal.Refusal};
ghost use Rattle.model.specs.Bytes.{Value32};
ghost use Rattle.model.specs.Record.{record_count, record_at, kind_at, p_at, q_at, is_term};
ghost use Rattle.model.specs.Term.{Term, term_at, columns_of};
ghost use Rattle.model.specs.Better.{Row, reaches, ByEdges, equal_in, EqualIn};
ghost use Rattle.model.specs.Query.{kept, Unbeaten, row_count, row_at, query_reply, query_buffer};
ghost use Rattle.model.specs.Perfect.{some_value, perfect, Perfect};
ghost use Rattle.model.specs.Demand.{is_chain, accepted, keeps};
ghost use Rattle.model.specs.Replies.{listed, listed_check, listed_compare, listed_query, listed_perfect};
ghost use Rattle.laws.specs.Accepted.{Accepted};
ghost use Rattle.laws.specs.AcceptedTerms.{AcceptedTerm};
ghost use Rattle.theorems.specs.Asked.{Asked, Long, BeatenBy};

pub mod leaving;
pub mod parts;
pub mod signed;

// ---- the definitions mean their sentences

// "Equal in all columns" of a mask: each column whose bit is set holds the same value in both rows.
pub fn equal_is_cells()
    ensures { (mask : ℕ) (x y : Row) → (equal_in mask x y ≡ true) ↔ EqualIn mask x y }
{}

// EXPLICIT: "y can be reached from x by one edge or more".
pub fn reaches_is_path()
    ensures { (edges : List Value) (x y : ℤ) → (reaches edges x y ≡ true) ↔ ByEdges edges x y }
{}

// "A row is kept when no row of the set is better, and only then", of any relation among n rows.
pub fn kept_is_unbeaten()
    ensures { (n : ℕ) (beats : ℕ → ℕ → Bool) (i : ℕ) → (kept n beats i ≡ true) ↔ Unbeaten n beats i }
{}

// The test holds of some 32-bit value.
pub fn some_value_is_some()
    ensures { (test : ℤ → Bool) → (some_value test ≡ true) ↔ ((x : ℤ) × Value32 x × (test x ≡ true)) }
{}

// "In every base term beneath the asked term, no 32-bit value is better than the row's; beneath an odd number of DUALs,
// none is worse."
pub fn perfect_is_all()
    ensures { (odd : Bool) (t : Term) (x : Row) → (perfect odd t x ≡ true) ↔ Perfect odd t x }
{}

// "A table is accepted when Check with the column count refuses nothing": none of 1 to 14 holds.
pub fn acceptance_gives()
    ensures { (table : List ℕ) (columns : ℕ) → (accepted table columns ≡ true) ↔ Accepted table columns }
{}

// Every term record of an accepted table is sound, over the columns, and as its kind says.
pub fn accepted_terms()
    ensures { (table : List ℕ) (columns : ℕ) → accepted table columns ≡ true → (k : ℕ) → k < record_count table
        → is_term (record_at table k) ≡ true → AcceptedTerm table columns k }
{}

// A refusal's number and place, and whatever else a reply lists, tell it apart from every other one.
pub fn listed_apart()
    ensures { ((a b : Refusal) → listed a ≡ listed b → a ≡ b)
        × ((a b : CheckReply) → listed_check a ≡ listed_check b → a ≡ b)
        × ((a b : CompareReply) → listed_compare a ≡ listed_compare b → a ≡ b)
        × ((a b : QueryReply) → listed_query a ≡ listed_query b → a ≡ b)
        × ((a b : PerfectReply) → listed_perfect a ≡ listed_perfect b → a ≡ b) }
{}

// ---- two sentences of "The calls"

// "Columns that neither the term nor the group reads have no bearing on the answers": two runs of one length whose rows
// agree in the columns that the term or the group reads get one reply and one answer buffer. Of any bytes.
pub fn unread_columns()
    ensures { (table : List ℕ) (columns : ℕ) (rows rows' : List ℤ) (term group : ℕ) (a : List ℕ)
        → length rows ≡ length rows'
        → ((i : ℕ) → i < row_count columns rows
        → EqualIn (columns_of (term_at table term)) (row_at columns rows i) (row_at columns rows' i))
        → ((i : ℕ) → i < row_count columns rows → EqualIn group (row_at columns rows i) (row_at columns rows' i))
        → (query_reply table columns rows term group a ≡ query_reply table columns rows' term group a)
        × (query_buffer table columns rows term group a ≡ query_buffer table columns rows' term group a) }
{}

// "Rows kept ungrouped by a chain are equal in its columns, so a PRIOR with a chain on the left keeps what the right
// keeps among the rows kept by the left": record k is of kind 17, and what is said of it holds in every group.
pub fn chain_cascade()
    ensures { ((table : List ℕ) (columns : ℕ) (rows : List ℤ) (term : ℕ) → Asked table columns rows term 0
        → is_chain (term_at table term) ≡ true → (a : List ℕ) → Long columns rows a
        → (i j : ℕ) → i < row_count columns rows → j < row_count columns rows
        → keeps table columns rows term 0 a i ≡ true → keeps table columns rows term 0 a j ≡ true
        → EqualIn (columns_of (term_at table term)) (row_at columns rows i) (row_at columns rows j))
        × ((table : List ℕ) (columns : ℕ) (rows : List ℤ) (k group : ℕ) → Asked table columns rows k group
        → kind_at table k ≡ 17 → is_chain (term_at table (p_at table k)) ≡ true
        → (a b : List ℕ) → Long columns rows a → Long columns rows b → (i : ℕ) → i < row_count columns rows
        → (keeps table columns rows k group a i ≡ true)
        ↔ ((keeps table columns rows (p_at table k) group b i ≡ true)
        × ((j : ℕ) → keeps table columns rows (p_at table k) group b j ≡ true
        → BeatenBy table columns rows (q_at table k) group i j → ⊥))) }
{}
