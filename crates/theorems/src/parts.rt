// The parts of the third signed sentence as theorems with names of their own; `signed::third_sentence` joins them.
// "Keeps" is here the test `keeps`, which reads `query_buffer`, what both engines write. a, b and c are answer buffers.
ghost use Rattle.std.specs.Prelude.{◌≡◌, ◌⊎◌, ◌↔◌, true, false, ◌&&◌, List, ℕ, ◌<◌, ℤ, length, get_or, Ok};
ghost use Rattle.std.specs.Int.Bits.{bit_or};
ghost use Rattle.model.specs.declared.Outcome.{Outcome};
ghost use Rattle.model.specs.Record.{p_at, q_at};
ghost use Rattle.model.specs.Term.{term_at, columns_of};
ghost use Rattle.model.specs.Better.{Row, better};
ghost use Rattle.model.specs.Check.{check_reply};
ghost use Rattle.model.specs.Compare.{compare_reply};
ghost use Rattle.model.specs.Query.{row_count, query_buffer};
ghost use Rattle.model.specs.Demand.{accepted, left_first, right_first, equally, keeps, keeps_among};
ghost use Rattle.laws.specs.Outcome.{turned};
ghost use Rattle.theorems.specs.Strictly.{TermRecord};
ghost use Rattle.theorems.specs.Asked.{Asked, TwoParts, AskedTwo, Long, Alike};
ghost use Rattle.theorems.specs.Asked.{BeatenBy, BeatenApart, KeepsAmong};

// ---- "the term orders the rows strictly"

// "None is better than itself."
pub fn irreflexive()
    ensures { (table : List ℕ) (columns term : ℕ) → TermRecord table columns term → (x : Row)
        → better (term_at table term) x x ≡ true → ⊥ }
{}

// "And better than better is better."
pub fn transitive()
    ensures { (table : List ℕ) (columns term : ℕ) → TermRecord table columns term → (x y z : Row)
        → better (term_at table term) x y ≡ true → better (term_at table term) y z ≡ true
        → better (term_at table term) x z ≡ true }
{}

// "what is claimed of better holds in Compare's replies too, for any rows x, y, z of the count's length"

// "x against x gives same."
pub fn compare_same()
    ensures { (table : List ℕ) (columns term : ℕ) → TermRecord table columns term → (x : Row) → length x ≡ columns
        → compare_reply table columns term x x ≡ Ok Outcome.Same }
{}

// "Where x, y gives first better, y, x gives second better, and the other way about; same and unranked don't change when
// the rows change places."
pub fn compare_turned()
    ensures { (table : List ℕ) (columns term : ℕ) → TermRecord table columns term → (x y : Row)
        → length x ≡ columns → length y ≡ columns → (o : Outcome)
        → compare_reply table columns term x y ≡ Ok o
        → compare_reply table columns term y x ≡ Ok (turned o) }
{}

// "Where x, y and y, z give first better, so does x, z."
pub fn compare_chained()
    ensures { (table : List ℕ) (columns term : ℕ) → TermRecord table columns term → (x y z : Row)
        → length x ≡ columns → length y ≡ columns → length z ≡ columns
        → compare_reply table columns term x y ≡ Ok Outcome.First
        → compare_reply table columns term y z ≡ Ok Outcome.First
        → compare_reply table columns term x z ≡ Ok Outcome.First }
{}

// A reply of first better is that the first is better.
pub fn compare_first()
    ensures { (table : List ℕ) (columns term : ℕ) → TermRecord table columns term → (x y : Row)
        → length x ≡ columns → length y ≡ columns
        → (compare_reply table columns term x y ≡ Ok Outcome.First)
        ↔ (better (term_at table term) y x ≡ true) }
{}

// None of these calls is refused.
pub fn compare_refuses_none()
    ensures { (table : List ℕ) (columns term : ℕ) → TermRecord table columns term → (x y : Row)
        → length x ≡ columns → length y ≡ columns
        → (o : Outcome) × (compare_reply table columns term x y ≡ Ok o) }
{}

// ---- two parts: a record of kind 16, 17 or 18, its two placings, and ranking equally

// "Check accepts each of the three", with the reply that the table itself gets.
pub fn placings_accepted()
    ensures { (table : List ℕ) (columns : ℕ) → accepted table columns ≡ true → (k : ℕ) → TwoParts table k
        → ((accepted (left_first table k) columns ≡ true)
        × (check_reply (left_first table k) columns ≡ check_reply table columns))
        × ((accepted (right_first table k) columns ≡ true)
        × (check_reply (right_first table k) columns ≡ check_reply table columns))
        × ((accepted (equally table k) columns ≡ true)
        × (check_reply (equally table k) columns ≡ check_reply table columns)) }
{}

// "One placed before the other keeps a row exactly when the first keeps it and the second keeps it among the rows of the
// set that equal it in the first's columns": the left first, and the right first. The parts are asked for by their own
// records, the second with the bits of the first's columns set in the group byte too.
pub fn prior_keeps()
    ensures { (table : List ℕ) (columns : ℕ) (rows : List ℤ) (k group : ℕ) → AskedTwo table columns rows k group
        → (i : ℕ) → i < row_count columns rows → (a b c : List ℕ)
        → Long columns rows a → Long columns rows b → Long columns rows c
        → (keeps (left_first table k) columns rows k group a i
        ≡ (keeps table columns rows (p_at table k) group b i
        && keeps table columns rows (q_at table k) (bit_or group (columns_of (term_at table (p_at table k)))) c i))
        × (keeps (right_first table k) columns rows k group a i
        ≡ (keeps table columns rows (q_at table k) group b i
        && keeps table columns rows (p_at table k) (bit_or group (columns_of (term_at table (q_at table k)))) c i)) }
{}

// "The query asks for that record, or for the part's own where a part alone keeps": of the table or of any of the
// three, the part's own record answers alike.
pub fn parts_alone()
    ensures { (table : List ℕ) (columns : ℕ) (rows : List ℤ) (k group : ℕ) → AskedTwo table columns rows k group
        → (a : List ℕ) → Long columns rows a → (part : ℕ) → (part ≡ p_at table k) ⊎ (part ≡ q_at table k)
        → Alike table (left_first table k) columns rows part group a
        × Alike table (right_first table k) columns rows part group a
        × Alike table (equally table k) columns rows part group a }
{}

// "Keeps among the rows equal in the first's columns: no row of the set that equals the row in those columns is better
// under the second. Query on the second gives this when the bits of those columns are set in the group byte too." The
// test, the query and the sentence agree, for any two term records of the table.
pub fn second_by_group()
    ensures { (table : List ℕ) (columns : ℕ) (rows : List ℤ) (first second group : ℕ)
        → TermRecord table columns first → Asked table columns rows second group
        → (i : ℕ) → i < row_count columns rows → (a : List ℕ) → Long columns rows a
        → (keeps_among table columns rows first second group i
        ≡ keeps table columns rows second (bit_or group (columns_of (term_at table first))) a i)
        × ((keeps_among table columns rows first second group i ≡ true)
        ↔ KeepsAmong table columns rows first second group i) }
{}

// "The same two, ranking equally, keep a row exactly when at least one of the two placings keeps it, or when it is beaten
// under both placings but by no single row of the set under both."
pub fn pareto_keeps()
    ensures { (table : List ℕ) (columns : ℕ) (rows : List ℤ) (k group : ℕ) → AskedTwo table columns rows k group
        → (i : ℕ) → i < row_count columns rows → (a b c : List ℕ)
        → Long columns rows a → Long columns rows b → Long columns rows c
        → (keeps (equally table k) columns rows k group a i ≡ true)
        ↔ ((keeps (left_first table k) columns rows k group b i ≡ true)
        ⊎ ((keeps (right_first table k) columns rows k group c i ≡ true)
        ⊎ BeatenApart (left_first table k) (right_first table k) columns rows k group i)) }
{}

// ---- the rows that are dropped

// "Every dropped row is beaten by a kept row of the set": by the one that its entry names.
pub fn dropped_beaten_by_kept()
    ensures { (table : List ℕ) (columns : ℕ) (rows : List ℤ) (term group : ℕ)
        → Asked table columns rows term group → (a : List ℕ) → Long columns rows a
        → (i : ℕ) → i < row_count columns rows → keeps table columns rows term group a i ≡ false
        → (j : ℕ) × BeatenBy table columns rows term group i j × (keeps table columns rows term group a j ≡ true)
        × (get_or (query_buffer table columns rows term group a) i 0 ≡ j) }
{}
