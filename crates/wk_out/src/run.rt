//! The lengths and marks of an output's runs.
ghost use Rattle.std.specs.Prelude.{◌≡◌, ℕ, ◌+◌, ◌^◌, ◌<◌, ◌≤◌, List, ◌++◌, length, All, vec_len, vec_capacity, [], ◌∷◌, false, OnOk, OnErr};
ghost use Rattle.std.specs.List.{list_any};
ghost use Rattle.wk_out.specs.Kept.{Covers, cut, listed, with_run, with_runs};
ghost use Rattle.wk_out.specs.declared.run.Run.{Run as RunValue};

use wk_memory::Memory;

/// The length in bytes of a run, and its mark.
#[derive(Clone, Copy)]
pub struct Run {
    pub len: usize,
    pub sealed: bool,
}

pub fn is_any_sealed(runs: &[Run]) -> bool
    ensures { result ≡ list_any (λ run. run.sealed) runs.now }
{
    runs.iter().any(|run| run.sealed)
}

/// Takes a run behind the others, as a part of the last one where their marks are the same.
fn add_run(runs: &mut Vec<Run>, new: Run)
    requires room { vec_len runs.old < vec_capacity runs.old }
    requires short { All (λ run. run.len < 2 ^ 63) runs.old.items }
    requires new_short { new.len < 2 ^ 63 }
    ensures runs { (text more : List ℕ) → Covers text runs.old.items → length more ≡ new.len
        → cut (text ++ more) runs.new.items ≡ with_run (cut text runs.old.items) (more, new.sealed) }
    ensures covers { (text more : List ℕ) → Covers text runs.old.items → length more ≡ new.len
        → Covers (text ++ more) runs.new.items }
    ensures room { vec_len runs.new ≤ vec_len runs.old + 1 }
    ensures capacity { vec_capacity runs.new ≡ vec_capacity runs.old }
{
    let count = runs.len();
    if 0 < count && runs[count - 1].sealed == new.sealed {
        runs[count - 1].len += new.len;
    } else {
        runs.push_reserved(new);
    }
}

/// Takes runs behind the others, the first of them as a part of the last one where their marks are the same.
pub fn add_runs(runs: &mut Vec<Run>, new: &[Run])
    requires room { vec_len runs.old + length new.now ≤ vec_capacity runs.old }
    requires short { All (λ run. run.len < 2 ^ 63) runs.old.items }
    requires new_short { All (λ run. run.len < 2 ^ 63) new.now }
    ensures runs { (text more : List ℕ) → Covers text runs.old.items → Covers more new.now
        → cut (text ++ more) runs.new.items ≡ with_runs (cut text runs.old.items) (cut more new.now) }
    ensures covers { (text more : List ℕ) → Covers text runs.old.items → Covers more new.now
        → Covers (text ++ more) runs.new.items }
{
    let Some((first, others)) = new.split_first() else {
        return;
    };
    add_run(runs, *first);
    for run in others {
        runs.push_reserved(*run);
    }
}

/// Writes the list of the runs of a text of so many bytes, where none is written because all of the text is plain.
pub fn write_list(runs: &mut Vec<Run>, len: usize) -> Result<(), Memory>
    ensures ok { OnOk result (runs.new.items ≡ listed len runs.old.items) }
    ensures err { OnErr result (runs.new.items ≡ runs.old.items) }
{
    if runs.is_empty() && 0 < len {
        runs.push(Run { len, sealed: false })?;
    }
    Ok(())
}

/// The runs of a text of so many bytes: the list, or else the plain run, where no list is written.
pub fn written<'a>(runs: &'a [Run], len: usize, plain: &'a [Run]) -> &'a [Run]
    requires { plain.now ≡ record { len = len; sealed = false } ∷ [] }
    ensures { result.now ≡ listed len runs.now }
{
    if runs.is_empty() && 0 < len {
        plain
    } else {
        runs
    }
}
