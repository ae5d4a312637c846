// Writing a file from record bytes, counts, start bytes and post bytes.
ghost use Rattle.std.specs.Prelude.{◌≡◌, true, ◌++◌, ◌+◌, ◌/◌, ◌≤◌, length, take, drop};
ghost use Rattle.model.specs.Refusals.{after};
ghost use Rattle.model.specs.Reading.{in_range};
ghost use Rattle.model.specs.Writing.{file_of, file_length, levels_fit, lent_check, written_by, written_of, out_after_writing};
ghost use Rattle.recording.specs.Filing.{filing_check};

use model::{Counts, Refusal};
use rules::{first_fault, in_range, known_edition, posts_up};

// The most level bytes: a start byte for each of 64 semaphores and a post byte for each of 64 flags.
const LEVELS: usize = 128;

// Whether the start bytes and the post bytes are as many as the edition takes.
fn levels_fit(counts: Counts, starts: &[u8], posts: &[u8]) -> bool
    ensures { result ≡ levels_fit counts starts.now posts.now }
{
    let semaphores = events::start_count(counts);
    let flags = events::flags(counts) as usize;
    (starts.len() == semaphores) & (posts.len() == flags)
}

// The checks of the counts and of the lent bytes: 2, 3, 4, 13.
fn lent_check(records: &[u8], counts: Counts, starts: &[u8], posts: &[u8]) -> Result<(), Refusal>
    ensures { result ≡ lent_check records.now counts starts.now posts.now }
{
    if !known_edition(counts) {
        return Err(Refusal::Edition);
    }
    if records.len() % 4 != 0 {
        return Err(Refusal::Extent);
    }
    let ranged = in_range(counts, records.len() / 4) & posts_up(posts);
    let fitting = levels_fit(counts, starts, posts);
    if !ranged {
        return Err(Refusal::Count);
    }
    if !fitting {
        return Err(Refusal::Starts);
    }
    Ok(())
}

// The level bytes: the start bytes, then the post bytes.
fn join_levels(starts: &[u8], posts: &[u8]) -> [u8; LEVELS]
    requires { length starts.now + length posts.now ≤ 128 }
    ensures { take (length starts.now + length posts.now) result ≡ starts.now ++ posts.now }
{
    let mut levels = [0u8; LEVELS];
    layout::copy_at(starts, &mut levels, 0);
    layout::copy_at(posts, &mut levels, starts.len());
    levels
}

// The checks of what the file would hold, and whether the output has room for it.
fn filing_check(records: &[u8], counts: Counts, levels: &[u8], out: &[u8]) -> Result<(), Refusal>
    requires { (in_range counts (length records.now / 4) ≡ true) × (length levels.now ≤ 128) }
    ensures { result ≡ filing_check records.now counts levels.now out.now }
{
    first_fault(records, counts, levels, records.len() / 4)?;
    if out.len() < records.len() + levels.len() + 16 {
        return Err(Refusal::Out);
    }
    Ok(())
}

// Makes these checks, and writes the file where they pass.
fn write_checked(
    records: &[u8],
    counts: Counts,
    levels: &[u8],
    out: &mut [u8],
) -> Result<usize, Refusal>
    requires { (in_range counts (length records.now / 4) ≡ true) × (length levels.now ≤ 128) }
    ensures value { result ≡ written_by (file_length records.now levels.now)
        (filing_check records.now counts levels.now out.old) }
    ensures out_after { out.new ≡ after (filing_check records.now counts levels.now out.old)
        (λ _. file_of records.now counts levels.now ++ drop (file_length records.now levels.now) out.old)
        out.old }
{
    filing_check(records, counts, levels, out)?;
    layout::put_file(records, counts, levels, out);
    Ok(records.len() + levels.len() + 16)
}

// Writes a file of these record bytes, counts, edition, start bytes and post bytes, with start 0, and answers its length. What is
// beyond it, and after a refusal all of the output, stays.
pub fn write(
    records: &[u8],
    tasks: u16,
    semaphores: u16,
    cells: u16,
    edition: u16,
    starts: &[u8],
    posts: &[u8],
    out: &mut [u8],
) -> Result<usize, Refusal>
    ensures value { result ≡ written_of records.now (record { tasks = tasks; semaphores = semaphores; cells = cells; edition = edition })
        starts.now posts.now out.old }
    ensures out_after { out.new ≡ out_after_writing records.now (record { tasks = tasks; semaphores = semaphores; cells = cells; edition = edition })
        starts.now posts.now out.old }
{
    let counts = Counts {
        tasks,
        semaphores,
        cells,
        edition,
    };
    lent_check(records, counts, starts, posts)?;
    let levels = join_levels(starts, posts);
    let n = starts.len() + posts.len();
    write_checked(records, counts, &levels[..n], out)
}
