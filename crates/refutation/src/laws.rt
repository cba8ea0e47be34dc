//! Laws of refutations: functions that do nothing, whose contracts are the laws.
ghost use Rattle.std.specs.Prelude.{◌≡◌, ◌≤◌, ℕ, ◌++◌, List, length, map, true, Option, Ok};
ghost use Rattle.res_base.specs.Lists.{Each};
ghost use Rattle.search_api.specs.declared.outcome.Closed.{Closed};
ghost use Rattle.search_api.specs.Meaning.{Meaning, IsLawful};
ghost use Rattle.search_api.specs.Accounts.{Accounted};
ghost use Rattle.refutation.specs.declared.node.Node.{Node};
ghost use Rattle.refutation.specs.Outcomes.{IsCovered, IsSound, IsOwned};
ghost use Rattle.refutation.specs.Trees.{Tree, nodes_of};
ghost use Rattle.refutation.specs.Canonical.{IsCanonicalOf};
ghost use Rattle.refutation.specs.Forms.{Form, form_of, takes_up, FitsForm, FitsBound, HasWords};
ghost use Rattle.refutation.specs.Lines.{ReasonsHaveLines};
ghost use Rattle.refutation.specs.Spelling.{lines_text, spelling, Spells};
ghost use Rattle.refutation.specs.Reading.{proof_of, IsPassedOver};

/// One meaning and one bound have one canonical node list.
pub fn canonical_is_one()
    ensures { (m : Meaning) (bound : Option ℕ) (nodes others : List Node) → IsCanonicalOf m bound nodes → IsCanonicalOf m bound others → nodes ≡ others }
{}

/// An accounted outcome has all that `canonical` and its clauses ask for, and its best rank fits the line of a bound.
pub fn accounted_outcome_serves()
    ensures covered { (m : Meaning) (best : Option ℕ) (kept : List ℕ) (closed : List Closed) → Accounted m best kept closed → IsCovered m.shape best kept closed }
    ensures sound { (m : Meaning) (best : Option ℕ) (kept : List ℕ) (closed : List Closed) → Accounted m best kept closed → IsSound m kept closed }
    ensures owned { (m : Meaning) (best : Option ℕ) (kept : List ℕ) (closed : List Closed) → Accounted m best kept closed → IsOwned m closed }
    ensures bound { (m : Meaning) (best : Option ℕ) (kept : List ℕ) (closed : List Closed) → IsLawful m → Accounted m best kept closed → FitsBound best }
{}

/// What was written is read again, also behind lines that are passed over.
pub fn written_is_read()
    ensures { (before : List (List ℕ)) (bound : Option ℕ) (forms : List Form) → Each IsPassedOver before → FitsBound bound → Each FitsForm forms → takes_up 1 forms ≡ true → proof_of (lines_text before ++ spelling bound forms) ≡ Ok (bound, forms) }
{}

/// What is read is the spelling of its bound and nodes, behind lines that are passed over: no other text is read. So it has
/// at least as many bytes as nodes.
pub fn read_is_written()
    ensures spells { (text : List ℕ) (bound : Option ℕ) (forms : List Form) → proof_of text ≡ Ok (bound, forms) → Spells text bound forms }
    ensures few { (text : List ℕ) (bound : Option ℕ) (forms : List Form) → proof_of text ≡ Ok (bound, forms) → length forms ≤ length text }
{}

/// The text of a canonical proof is read as its bound and its nodes, also behind lines that are passed over, where each
/// reason of the judge has a line.
pub fn canonical_is_read()
    ensures fits { (m : Meaning) (bound : Option ℕ) (nodes : List Node) → IsLawful m → ReasonsHaveLines m → IsCanonicalOf m bound nodes → Each FitsForm (map form_of nodes) }
    ensures read { (m : Meaning) (bound : Option ℕ) (nodes : List Node) (before : List (List ℕ)) → IsLawful m → ReasonsHaveLines m → FitsBound bound → IsCanonicalOf m bound nodes → Each IsPassedOver before → proof_of (lines_text before ++ spelling bound (map form_of nodes)) ≡ Ok (bound, map form_of nodes) }
{}

/// The nodes of a tree make up one tree.
pub fn tree_is_whole()
    ensures { (tree : Tree) → takes_up 1 (map form_of (nodes_of tree)) ≡ true }
{}

/// Nodes that have the same lines are the same.
pub fn lines_tell_nodes()
    ensures { (nodes others : List Node) → Each HasWords nodes → Each HasWords others → map form_of nodes ≡ map form_of others → nodes ≡ others }
{}
