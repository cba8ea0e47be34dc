//! What lines of a project's text say together.
ghost use Rattle.std.specs.Prelude.{◌≡◌, ◌≢◌, ◌≤◌, ◌<◌, ◌+◌, ◌^◌, ◌∷◌, ◌++◌, ℕ, List, [], Bool, true, Ok, Some, None, IfOk, IsOkAnd, IsSomeAnd, decimal, drop, length, map};
ghost use Rattle.res_base.specs.Lists.{Each, Pairwise};
ghost use Rattle.std.specs.List.{flat_map};
ghost use Rattle.std.specs.Str.Lines.{lines};
ghost use Rattle.ioc_text.specs.Lines.{ioc_after, is_named, line_at, undone};
ghost use Rattle.ioc_text.specs.declared.line.Line.{Line};
ghost use Rattle.ioc_project.specs.Project.{pin_lines, project_of, signals_after};
ghost use Rattle.res_model.specs.Valid.{IsPrinting};
ghost use Rattle.res_model.specs.declared.opts.Opts.{Opts};
ghost use Rattle.res_model.specs.declared.project.Project.{Project};
ghost use Rattle.res_model.specs.declared.table.TableParts.{TableParts};
ghost use Rattle.ioc_lines.specs.Again.{IsReadAgain, SaysAgain};
ghost use Rattle.ioc_lines.specs.Entries.{Differ, NearIf, Reads, entries, entry_of, entry_on, lines_from, lookup, pin_values, value_of};
ghost use Rattle.ioc_lines.specs.Lines.{IsClean, IsEnded, Keyed, TextLine, escaped, is_suffix, keyed, last_dot, text_lines, with_pin, with_value};
ghost use Rattle.ioc_lines.specs.Standing.{HomesApart, PutAll, StandAll};

/// Lines are read where each is read and no key stands twice, and then they say their entries.
pub fn lines_are_read()
    ensures each { (ls : List (List ℕ)) (found : List Line) → ioc_after [] 1 ls ≡ Ok found → Each Reads ls × (found ≡ lines_from 1 ls) × Pairwise Differ found }
    ensures all { (ls : List (List ℕ)) → Each Reads ls → Pairwise Differ (lines_from 1 ls) → ioc_after [] 1 ls ≡ Ok (lines_from 1 ls) }
{}

/// The line of a key has the value of its entry, and the lines of keys `Mcu.Pin<k>` have theirs with k ascending.
pub fn keys_have_values()
    ensures lines { (n : ℕ) (ls : List (List ℕ)) → map entry_on (lines_from n ls) ≡ entries ls }
    ensures value { (ioc : List Line) (key : List ℕ) → value_of (line_at ioc key) ≡ lookup (map entry_on ioc) key }
    ensures pins { (ioc : List Line) → map (λ l. l.value) (pin_lines ioc) ≡ pin_values (map entry_on ioc) }
{}

/// Signals are read where the lines of their pins put them, and stood where they were read.
pub fn signals_are_where_lines_put_them()
    ensures put { (t : TableParts) (ioc : List Line) (kept : Bool) (lines : List Line) (ps : List (ℕ × List ℕ)) → PutAll t ioc (map (λ l. l.value) lines) ps → Pairwise (λ a b. a.0 ≢ b.0) ps
        → IsOkAnd (signals_after t ioc kept [] lines) (λ ss. (map (λ s. s.name) ss ≡ map (λ p. p.1) ps) × (map (λ s. s.home) ss ≡ map (λ p. Some p.0) ps)) }
    ensures stood { (t : TableParts) (ioc : List Line) (kept : Bool) (lines : List Line) → IfOk (signals_after t ioc kept [] lines) (λ ss. StandAll t ioc kept (map (λ l. l.value) lines) ss × Pairwise HomesApart ss) }
{}

/// A project is read again of lines that say it again, with these signals and clocks at home.
pub fn projects_are_read_again()
    ensures { (t : TableParts) (opts : Opts) (ioc : List Line) (out : List Line) (p : Project) (ps : List (ℕ × List ℕ)) (w : ℕ → ℕ) → project_of t ioc opts true ≡ Ok p → SaysAgain t opts ioc out p.clock ps w → IsReadAgain t opts out ps w }
{}

/// The lines say what a text's lines are, and with their ends they are the text. Lines that end are the lines of their text.
pub fn lines_are_the_text()
    ensures says { (text : List ℕ) → map (λ l. l.says) (text_lines text) ≡ lines text }
    ensures whole { (text : List ℕ) → flat_map (λ l. l.says ++ l.end) (text_lines text) ≡ text }
    ensures ended { (ls : List TextLine) (rest : List ℕ) → Each IsEnded ls → lines (flat_map (λ l. l.says ++ l.end) ls ++ rest) ≡ map (λ l. l.says) ls ++ lines rest }
{}

/// A name is read as it is from what is written of it, and so is a line of a key and a value.
pub fn names_are_read_back()
    ensures name { (name : List ℕ) → undone (escaped name) ≡ Some name }
    ensures line { (key value : List ℕ) → 0 < length key → is_named key ≡ true → length (escaped key ++ 61 ∷ escaped value) ≤ 65535
        → Reads (escaped key ++ 61 ∷ escaped value) × (entry_of (escaped key ++ 61 ∷ escaped value) ≡ Some (key, value)) }
    ensures without_cr { (says : List ℕ) → Reads (says ++ 13 ∷ []) → Reads says × NearIf (entry_of (says ++ 13 ∷ [])) (entry_of says) }
{}

/// A line keeps its key where its value changes, and has that value.
pub fn keys_stay_with_other_values()
    ensures key { (says value : List ℕ) (k : Keyed) → keyed says ≡ Some k → keyed (with_value says k.equals value) ≡ Some k }
    ensures value { (says value : List ℕ) (k : Keyed) → keyed says ≡ Some k → drop (k.equals + 1) (with_value says k.equals value) ≡ value }
{}

/// A line with another pin in its key has that pin's name before what stood from the key's last dot on, and keeps its value.
pub fn keys_get_their_new_pin()
    ensures { (says name : List ℕ) (k : Keyed) (dot : ℕ) → keyed says ≡ Some k → last_dot k.key ≡ Some dot → 0 < length name
        → IsSomeAnd (keyed (with_pin says k.equals (escaped name))) (λ j. (j.key ≡ name ++ drop dot k.key) × (drop (j.equals + 1) (with_pin says k.equals (escaped name)) ≡ drop (k.equals + 1) says)) }
{}

/// A key of a pin, whose name begins with P, is named by what stands from its last dot on.
pub fn keys_of_pins_are_named()
    ensures { (prefix rest bs : List ℕ) → prefix ≡ 80 ∷ bs → last_dot rest ≡ None → is_named (prefix ++ 46 ∷ rest) ≡ is_suffix (46 ∷ rest) }
{}

/// A number is written as it is, and what prints has no LF.
pub fn numbers_are_plain()
    ensures number { (n : ℕ) → n < 2 ^ 64 → escaped (decimal n) ≡ decimal n }
    ensures clean { (bs : List ℕ) → Each IsPrinting bs → IsClean (escaped bs) }
{}
