// The top call: one command over any files and any sink.
ghost use Rattle.std.specs.Prelude.{◌≡◌, ◌≢◌, ◌⊎◌, IsTrue, IsSomeAnd, MatchOption, None, Some};
ghost use Rattle.std.specs.Option.{ForSome};
ghost use Rattle.outer_files.specs.Outside.{WhereTold, Rose, RoseBy};
ghost use Rattle.whopr_words.specs.Commands.{Link, words_of};
ghost use Rattle.whopr_top.specs.Built.{command_of, IsWhole, IfLink};
ghost use Rattle.whopr_top.specs.Links.{Links};
ghost use Rattle.whopr_top.specs.Reads.{reads_of, IsAbsent};
ghost use Rattle.whopr_top.specs.Outputs.{Done, Faithful, CutShort, Refused, IsTooLarge, IsValid};
ghost use Rattle.whopr_top.specs.Answers.{Exactly, is_status, is_early, lines_of, IsQuiet, PutsLine};

use crate::attempt::attempt;
use crate::links::link;
use crate::report::{report, tell};
use outer_files::{FileStore, Sink};
use std::alloc::Global;
use whopr_words::{Command, read_words};

/// The most bytes of a file that is read: 16 MiB.
pub const FILE_BYTES: u64 = 16 << 20;

// The job file of `link`, where the words are that command.
fn link_of(words: &[String]) -> Option<&str>
    ensures { MatchOption result (IsWhole (command_of (words_of words.now))) (λ jobs. command_of (words_of words.now) ≡ Some (Link jobs.now)) }
{
    match read_words(words) {
        Some(Command::Link { jobs }) => Some(jobs),
        _ => None,
    }
}

/// Does one command and answers its status; the words do not hold the program's name. So far there are
///
/// - `cc IN OUT`, which links the object of the text IN, a whole program by itself, to the image OUT and prints nothing;
/// - `lgen IN OUT`, which writes the object of the text IN to OUT and prints nothing;
/// - `show OBJ`, which prints the canonical text of the module of the object OBJ and writes nothing;
/// - `run IMAGE STEPS INPUT OUT`, which runs the image for at most STEPS steps on the bytes of INPUT, writes its output to OUT,
///   and prints `running`, `ended S` or `trapped A`, with the status or the address in decimal;
/// - `resolve OUT OBJ..`, which writes to OUT which definition of each name prevails among 1 to 256 objects, and prints nothing;
/// - `interp JOBS STEPS INPUT OUT`, which runs the program of the only job of the file JOBS for at most STEPS steps on the bytes of INPUT,
///   writes what it prints to OUT, and prints `running`, `ended S` or `undefined F P`, with the status, or the number of the function and
///   the place of the statement in decimal;
/// - `link JOBS`, which links each job of the file JOBS alone, writes their images, and prints a line for each: the name of its file
///   and `ok BYTES`, or the line of why it is refused. A job that is refused leaves the others as they are. The status is 0, or that of
///   the first job that is refused.
///
/// | Status | Line | Comes |
/// |---|---|---|
/// | 0 | | the command was done |
/// | 2 | `2 words` | the words are no command, or none of these |
/// | 3 | `3 object N KIND ..` | the object with this number among those of the command, from 0, has a fault, and none before it; its first, and where it is |
/// | 4 | `4 limit QUANTITY NUMBER LIMIT` | a file that is read has more than 16 MiB (FileBytes), the objects have more than 256 MiB together (BatchBytes), or the program has too many functions, too much code or too large arrays |
/// | 5 | `5 read NAME` | a file could not be read; the first |
/// | 6 | `6 write NAME` | the file could not be written; `-` is the sink |
/// | 7 | `7 memory` | there was no memory |
/// | 8 | `8 resolution KIND NAME` | the objects define the name twice, or not at all, or no `int main ()` that is strong or weak; for `cc`, a statement names a declaration, or there is no such `main` |
/// | 9 | `9 text LINE KIND` | the text is outside the grammar or the checks; its first fault is in this line |
/// | 10 | `10 jobs LINE` | the job file has another form; its first bad line, or 1 where `interp` is given another number of jobs than one |
/// | 11 | `11 image OFFSET` | the image can't be loaded; its first fault is at this byte |
pub fn plain<F: FileStore, K: Sink>(
    alloc: Global,
    words: &[String],
    files: &mut F,
    out: &mut K,
) -> u8
    // Each answer has its cause. Want of memory, 7, is free.
    ensures answers { IsTrue (is_status result) }
    ensures words { Exactly 2 result ((command_of (words_of words.now)) ≡ None) }
    ensures object { IsWhole (command_of (words_of words.now)) → ForSome (F.held files.old) (λ held. result ≢ 5 → Exactly 3 result (Refused 3 FILE_BYTES held (command_of (words_of words.now)))) }
    ensures limit { IsWhole (command_of (words_of words.now)) → ForSome (F.held files.old) (λ held. result ≢ 5 → Exactly 4 result (IsTooLarge FILE_BYTES held (command_of (words_of words.now)))) }
    ensures absent { IsWhole (command_of (words_of words.now)) → ForSome (F.held files.old) (λ held. IsSomeAnd (command_of (words_of words.now)) (λ c. IsAbsent FILE_BYTES held (reads_of held c)) → (result ≡ 5) ⊎ (result ≡ 7)) }
    ensures resolution { IsWhole (command_of (words_of words.now)) → ForSome (F.held files.old) (λ held. result ≢ 5 → Exactly 8 result (Refused 8 FILE_BYTES held (command_of (words_of words.now)))) }
    ensures text { IsWhole (command_of (words_of words.now)) → ForSome (F.held files.old) (λ held. result ≢ 5 → Exactly 9 result (Refused 9 FILE_BYTES held (command_of (words_of words.now)))) }
    ensures jobs { IsWhole (command_of (words_of words.now)) → ForSome (F.held files.old) (λ held. result ≢ 5 → Exactly 10 result (Refused 10 FILE_BYTES held (command_of (words_of words.now)))) }
    ensures image { IsWhole (command_of (words_of words.now)) → ForSome (F.held files.old) (λ held. result ≢ 5 → Exactly 11 result (Refused 11 FILE_BYTES held (command_of (words_of words.now)))) }
    ensures read { IsWhole (command_of (words_of words.now)) → result ≡ 5 → Rose (F.faults files.old) (F.faults files.new) }
    ensures write { IsWhole (command_of (words_of words.now)) → result ≡ 6 → Rose (F.faults files.old) (F.faults files.new) ⊎ (Rose (K.known out.old).faults (K.known out.new).faults × ¬ IsQuiet (command_of (words_of words.now))) }
    ensures counting { IsWhole (command_of (words_of words.now)) → RoseBy (lines_of result) (F.faults files.old) (F.faults files.new)
        ⊎ ((result ≡ 6) × Rose (K.known out.old).faults (K.known out.new).faults × ¬ IsQuiet (command_of (words_of words.now))) }

    // A command over held files that nothing keeps from being done is done, where neither the store nor the sink fails.
    ensures complete { IsWhole (command_of (words_of words.now)) → ForSome (F.held files.old) (λ held. IsValid FILE_BYTES held (command_of (words_of words.now))
        → ¬ Rose (F.faults files.old) (F.faults files.new) → ¬ Rose (K.known out.old).faults (K.known out.new).faults → (result ≡ 0) ⊎ (result ≡ 7)) }

    // An image that was compiled can be loaded and does, on every input, what the program of its text does.
    ensures follows { IsWhole (command_of (words_of words.now)) → result ≡ 0 → WhereTold (F.held files.old) (F.held files.new) (Faithful (command_of (words_of words.now))) }

    // What the files hold then. Where the sink fails at the text of a command that was done, its files are written.
    ensures done { IsWhole (command_of (words_of words.now)) → result ≡ 0 → WhereTold (F.held files.old) (F.held files.new) (Done FILE_BYTES (command_of (words_of words.now))) }
    ensures cut_short { IsWhole (command_of (words_of words.now)) → result ≡ 6 → WhereTold (F.held files.old) (F.held files.new) (CutShort FILE_BYTES (command_of (words_of words.now)))
        ⊎ (Rose (K.known out.old).faults (K.known out.new).faults × ¬ IsQuiet (command_of (words_of words.now)) × WhereTold (F.held files.old) (F.held files.new) (Done FILE_BYTES (command_of (words_of words.now)))) }
    ensures early { IsWhole (command_of (words_of words.now)) → IsTrue (is_early result) → F.held files.new ≡ F.held files.old }
    ensures memory { IsWhole (command_of (words_of words.now)) → result ≡ 7 → (F.held files.new ≡ F.held files.old) ⊎ WhereTold (F.held files.old) (F.held files.new) (CutShort FILE_BYTES (command_of (words_of words.now)))
        ⊎ WhereTold (F.held files.old) (F.held files.new) (Done FILE_BYTES (command_of (words_of words.now))) }

    // What was put: all that a command prints in one put, and nothing where that is nothing.
    ensures quiet { IsWhole (command_of (words_of words.now)) → result ≡ 0 → IsQuiet (command_of (words_of words.now)) → out.new ≡ out.old }
    ensures printed { IsWhole (command_of (words_of words.now)) → PutsLine FILE_BYTES (F.held files.old) (command_of (words_of words.now)) result (K.known out.old) (K.known out.new) }

    // `link` is refused as a whole, or reports each job.
    ensures links { IfLink (command_of (words_of words.now)) (λ jobs. Links FILE_BYTES jobs (F.held files.old) (F.held files.new) (F.faults files.old) (F.faults files.new) result (K.known out.old) (K.known out.new)) }
{
    if let Some(jobs) = link_of(words) {
        return link(alloc, jobs, files, out);
    }
    match attempt(alloc, words, files) {
        Ok(text) => tell(&text, out),
        Err(refusal) => report(alloc, refusal, out),
    }
}

/// The call that the program makes. It is `plain` until there are commands that run in threads.
pub fn whopr<F: FileStore, K: Sink>(
    alloc: Global,
    words: &[String],
    files: &mut F,
    out: &mut K,
) -> u8
    // Each answer has its cause. Want of memory, 7, is free.
    ensures answers { IsTrue (is_status result) }
    ensures words { Exactly 2 result ((command_of (words_of words.now)) ≡ None) }
    ensures object { IsWhole (command_of (words_of words.now)) → ForSome (F.held files.old) (λ held. result ≢ 5 → Exactly 3 result (Refused 3 FILE_BYTES held (command_of (words_of words.now)))) }
    ensures limit { IsWhole (command_of (words_of words.now)) → ForSome (F.held files.old) (λ held. result ≢ 5 → Exactly 4 result (IsTooLarge FILE_BYTES held (command_of (words_of words.now)))) }
    ensures absent { IsWhole (command_of (words_of words.now)) → ForSome (F.held files.old) (λ held. IsSomeAnd (command_of (words_of words.now)) (λ c. IsAbsent FILE_BYTES held (reads_of held c)) → (result ≡ 5) ⊎ (result ≡ 7)) }
    ensures resolution { IsWhole (command_of (words_of words.now)) → ForSome (F.held files.old) (λ held. result ≢ 5 → Exactly 8 result (Refused 8 FILE_BYTES held (command_of (words_of words.now)))) }
    ensures text { IsWhole (command_of (words_of words.now)) → ForSome (F.held files.old) (λ held. result ≢ 5 → Exactly 9 result (Refused 9 FILE_BYTES held (command_of (words_of words.now)))) }
    ensures jobs { IsWhole (command_of (words_of words.now)) → ForSome (F.held files.old) (λ held. result ≢ 5 → Exactly 10 result (Refused 10 FILE_BYTES held (command_of (words_of words.now)))) }
    ensures image { IsWhole (command_of (words_of words.now)) → ForSome (F.held files.old) (λ held. result ≢ 5 → Exactly 11 result (Refused 11 FILE_BYTES held (command_of (words_of words.now)))) }
    ensures read { IsWhole (command_of (words_of words.now)) → result ≡ 5 → Rose (F.faults files.old) (F.faults files.new) }
    ensures write { IsWhole (command_of (words_of words.now)) → result ≡ 6 → Rose (F.faults files.old) (F.faults files.new) ⊎ (Rose (K.known out.old).faults (K.known out.new).faults × ¬ IsQuiet (command_of (words_of words.now))) }
    ensures counting { IsWhole (command_of (words_of words.now)) → RoseBy (lines_of result) (F.faults files.old) (F.faults files.new)
        ⊎ ((result ≡ 6) × Rose (K.known out.old).faults (K.known out.new).faults × ¬ IsQuiet (command_of (words_of words.now))) }

    // A command over held files that nothing keeps from being done is done, where neither the store nor the sink fails.
    ensures complete { IsWhole (command_of (words_of words.now)) → ForSome (F.held files.old) (λ held. IsValid FILE_BYTES held (command_of (words_of words.now))
        → ¬ Rose (F.faults files.old) (F.faults files.new) → ¬ Rose (K.known out.old).faults (K.known out.new).faults → (result ≡ 0) ⊎ (result ≡ 7)) }

    // An image that was compiled can be loaded and does, on every input, what the program of its text does.
    ensures follows { IsWhole (command_of (words_of words.now)) → result ≡ 0 → WhereTold (F.held files.old) (F.held files.new) (Faithful (command_of (words_of words.now))) }

    // What the files hold then. Where the sink fails at the text of a command that was done, its files are written.
    ensures done { IsWhole (command_of (words_of words.now)) → result ≡ 0 → WhereTold (F.held files.old) (F.held files.new) (Done FILE_BYTES (command_of (words_of words.now))) }
    ensures cut_short { IsWhole (command_of (words_of words.now)) → result ≡ 6 → WhereTold (F.held files.old) (F.held files.new) (CutShort FILE_BYTES (command_of (words_of words.now)))
        ⊎ (Rose (K.known out.old).faults (K.known out.new).faults × ¬ IsQuiet (command_of (words_of words.now)) × WhereTold (F.held files.old) (F.held files.new) (Done FILE_BYTES (command_of (words_of words.now)))) }
    ensures early { IsWhole (command_of (words_of words.now)) → IsTrue (is_early result) → F.held files.new ≡ F.held files.old }
    ensures memory { IsWhole (command_of (words_of words.now)) → result ≡ 7 → (F.held files.new ≡ F.held files.old) ⊎ WhereTold (F.held files.old) (F.held files.new) (CutShort FILE_BYTES (command_of (words_of words.now)))
        ⊎ WhereTold (F.held files.old) (F.held files.new) (Done FILE_BYTES (command_of (words_of words.now))) }

    // What was put: all that a command prints in one put, and nothing where that is nothing.
    ensures quiet { IsWhole (command_of (words_of words.now)) → result ≡ 0 → IsQuiet (command_of (words_of words.now)) → out.new ≡ out.old }
    ensures printed { IsWhole (command_of (words_of words.now)) → PutsLine FILE_BYTES (F.held files.old) (command_of (words_of words.now)) result (K.known out.old) (K.known out.new) }

    // `link` is refused as a whole, or reports each job.
    ensures links { IfLink (command_of (words_of words.now)) (λ jobs. Links FILE_BYTES jobs (F.held files.old) (F.held files.new) (F.faults files.old) (F.faults files.new) result (K.known out.old) (K.known out.new)) }
{
    plain(alloc, words, files, out)
}
