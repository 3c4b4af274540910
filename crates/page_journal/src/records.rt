//! The record of a commit: how many pages it has, and each of them.
ghost use Rattle.std.specs.Prelude.{◌≡◌, ◌*◌, ◌<◌, ◌≤◌, ◌^◌, length, take, drop, IfSome, IsNone};
ghost use Rattle.std.specs.Int.{w64, from_be_bytes};
ghost use Rattle.page_journal.specs.JournalBytes.{begins_with_record, count_of, entries, all_low};

/// How many bytes a page has.
pub(crate) const PAGE_BYTES: usize = 4096;

/// How many pages a commit has at most.
const MOST_PAGES: u32 = 1024;

/// How many bytes a page takes in the record: its number, and its bytes.
pub(crate) const ENTRY_BYTES: usize = 4104;

/// Page numbers are below this one.
const NUMBERS: u64 = 1 << 40;

/// The first page of a record's rest.
#[derive(Clone, Copy)]
pub(crate) struct Entry<'a> {
    /// The number of the page.
    pub(crate) number: u64,
    /// Its bytes.
    pub(crate) page: &'a [u8],
    /// What stands behind it.
    pub(crate) behind: &'a [u8],
}

/// Takes the first page off what is left of a record. There is none where fewer bytes are left than a page takes.
pub(crate) fn split_entry(rest: &[u8]) -> Option<Entry<'_>>
    ensures number { IfSome result (λ entry. entry.number ≡ from_be_bytes w64 (take 8 rest.now)) }
    ensures page { IfSome result (λ entry. entry.page.now ≡ take 4096 (drop 8 rest.now)) }
    ensures behind { IfSome result (λ entry. entry.behind.now ≡ drop 4104 rest.now) }
    ensures short { IsNone result → length rest.now < 4104 }
{
    if rest.len() < ENTRY_BYTES {
        return None;
    }
    let (number, bytes) = rest.split_first_chunk::<8>()?;
    let (page, behind) = bytes.split_at(PAGE_BYTES);
    Some(Entry {
        number: u64::from_be_bytes(*number),
        page,
        behind,
    })
}

/// How many pages a record says that it has, and what stands behind that. There is none in fewer than four bytes.
pub(crate) fn split_count(kept: &[u8]) -> Option<(u32, &[u8])>
    ensures count { IfSome result (λ split. split.0 ≡ count_of kept.now) }
    ensures behind { IfSome result (λ split. split.1.now ≡ drop 4 kept.now) }
    ensures long { IfSome result (λ split. 4 ≤ length kept.now) }
    ensures short { IsNone result → length kept.now < 4 }
{
    let (count, rest) = kept.split_first_chunk::<4>()?;
    Some((u32::from_be_bytes(*count), rest))
}

/// Whether so many pages of a record have numbers that are in use.
fn numbers_are_low(count: u32, pages: &[u8]) -> bool
    ensures { 4104 * count ≤ length pages.now → result ≡ all_low (entries count pages.now) }
{
    let mut rest = pages;
    for _ in 0..count {
        let Some(entry) = split_entry(rest) else {
            return false;
        };
        let number = entry.number;
        if number >= NUMBERS {
            return false;
        }
        rest = entry.behind;
    }
    true
}

/// Whether the bytes begin with a whole record.
pub(crate) fn is_record(bytes: &[u8]) -> bool
    ensures { result ≡ begins_with_record bytes.now }
{
    let Some((count, pages)) = split_count(bytes) else {
        return false;
    };
    if count == 0 {
        return false;
    }
    if count > MOST_PAGES {
        return false;
    }
    let needed = count as usize * ENTRY_BYTES;
    if pages.len() < needed {
        return false;
    }
    numbers_are_low(count, pages)
}
