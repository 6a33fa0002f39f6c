ghost use Rattle.std.specs.Prelude.{◌≡◌, ◌+◌, ◌-◌, ◌<◌, ◌≤◌, ◌∷◌, ◌++◌, length, take, drop};
ghost use Rattle.std.specs.List.{position};
ghost use Rattle.row.specs.Laws.{RowLaws};
ghost use Rattle.row.specs.Rows.{inserted, without, count_answer, insert_answer, after_insert, remove_answer, after_remove, first_answer};

use crate::precedence::Precedence;
use crate::refusal::RowRefusal;

// Over a lent slice with the count of its entries beside it: a row keeps no memory of its own, and allocates none, whatever holds
// its entries. The functions that move entries take the whole slice too, since their contracts say what stays behind the row.

/// Puts an entry among the first `n` of the slice, where its precedence says, and answers their new count.
pub fn insert<E: Precedence>(row: &mut [E], n: usize, entry: E) -> Result<usize, RowRefusal>
    ensures answer { result ≡ insert_answer n row.old }
    ensures after { row.new ≡ after_insert E.Precedence.test n entry row.old }
    ensures laws { RowLaws E.Precedence.Precedes E.Precedence.test }
{
    check_count(&*row, n)?;
    if n == row.len() {
        return Err(RowRefusal::NoRoom);
    }
    let place = place_of(&row[..n], &entry);
    open_at(row, n + 1, place, entry);
    Ok(n + 1)
}

/// The first of the first `n` entries of the slice; none where there is no entry.
pub fn first<E: Precedence>(row: &[E], n: usize) -> Result<Option<E>, RowRefusal>
    ensures answer { result ≡ first_answer n row.now }
    ensures laws { RowLaws E.Precedence.Precedes E.Precedence.test }
{
    check_count(row, n)?;
    Ok(row[..n].first().copied())
}

/// Takes the entry at a place out of the first `n` of the slice, and answers it; the place that falls free stays as it was.
pub fn remove<E: Precedence>(row: &mut [E], n: usize, place: usize) -> Result<E, RowRefusal>
    ensures answer { result ≡ remove_answer n place row.old }
    ensures after { row.new ≡ after_remove n place row.old }
    ensures laws { RowLaws E.Precedence.Precedes E.Precedence.test }
{
    check_count(&*row, n)?;
    let entry = row[..n].get(place).copied().ok_or(RowRefusal::NoSuchPlace)?;
    close_at(row, n, place);
    Ok(entry)
}

// Refuses a count beyond the slice. Every call passes here, so the laws of rows are proved here for all of them.
fn check_count<E: Precedence>(row: &[E], n: usize) -> Result<(), RowRefusal>
    ensures answer { result ≡ count_answer n row.now }
    ensures laws { RowLaws E.Precedence.Precedes E.Precedence.test }
{
    if n > row.len() {
        return Err(RowRefusal::CountBeyondSlice);
    }
    Ok(())
}

// Where an entry goes in: before the first that it precedes.
fn place_of<E: Precedence>(entries: &[E], added: &E) -> usize
    ensures within { result ≤ length entries.now }
    ensures place { inserted E.Precedence.test added.now entries.now ≡ take result entries.now ++ added.now ∷ drop result entries.now }
{
    first_preceded(entries, added).unwrap_or(entries.len())
}

fn first_preceded<E: Precedence>(entries: &[E], added: &E) -> Option<usize>
    ensures { result ≡ position (λ standing. E.Precedence.test added.now standing) entries.now }
{
    entries.iter().position(|standing| added.precedes(standing))
}

// Within the first `end` places, moves the entries from a place on by one and puts an entry there. What stood last is written over.
fn open_at<E: Copy>(row: &mut [E], end: usize, place: usize, entry: E)
    requires { (end ≤ length row.old) × (place < end) }
    ensures { row.new ≡ (take place row.old ++ entry ∷ drop place (take (end - 1) row.old)) ++ drop end row.old }
{
    row[end - 1] = entry;
    row[place..end].rotate_right(1);
}

// Within the first n places, moves the entries after a place back by one. What stood last stays there too.
fn close_at<E: Copy>(row: &mut [E], n: usize, place: usize)
    requires { (n ≤ length row.old) × (place < n) }
    ensures { row.new ≡ without place (take n row.old) ++ drop (n - 1) row.old }
{
    row.copy_within(place + 1..n, place);
}
