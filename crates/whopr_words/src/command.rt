// The words of a command.
ghost use Rattle.std.specs.Prelude.{◌≡◌, MatchOption, None, Some, [], ◌∷◌, IfSome, option_map, string_bytes};
ghost use Rattle.std.specs.List.{list_all};
ghost use Rattle.whopr_words.specs.Commands.{is_printable, words_of, is_file_name, is_prefix, are_objects, of_one, made_from, gen_of, of_three, run_by, resolve_of, command_by, command_of, HasObjects};
ghost use Rattle.whopr_words.specs.Spoken.{spoken_of};

use cursors::decimal;

/// A command, which lends its words. A file name has 1 to 255 bytes from 0x21 to 0x7e.
#[derive(Clone, Copy)]
pub enum Command<'a> {
    /// Compiles the text `input` to the image `out`.
    Cc {
        input: &'a str,
        out: &'a str,
    },
    /// Writes the object of the text `input` to `out`.
    Lgen {
        input: &'a str,
        out: &'a str,
    },
    /// Prints the module of `object`.
    Show {
        object: &'a str,
    },
    /// Runs the program of the one link of `jobs` for at most `steps` steps with the bytes of `input`, and writes its output to
    /// `out`.
    Interp {
        jobs: &'a str,
        steps: u64,
        input: &'a str,
        out: &'a str,
    },
    /// Runs `image` for at most `steps` steps with the bytes of `input`, and writes its output to `out`.
    Run {
        image: &'a str,
        steps: u64,
        input: &'a str,
        out: &'a str,
    },
    /// Writes the resolution of 1 to 256 objects to `out`.
    Resolve {
        out: &'a str,
        objects: &'a [String],
    },
    /// Makes the links of `jobs`, one after the other.
    Link {
        jobs: &'a str,
    },
    /// Makes the links of `jobs` at once, and writes what their workers did to `trace`.
    Batch {
        jobs: &'a str,
        trace: &'a str,
    },
    /// Makes the links of `jobs` by `schedule`, and writes what their workers did to `trace`.
    Replay {
        jobs: &'a str,
        schedule: &'a str,
        trace: &'a str,
    },
    /// Makes a program of 1 to 4,000 functions and links it. The names of its files begin with `prefix`, of 1 to 200 bytes.
    Gen {
        seed: u64,
        count: u64,
        prefix: &'a str,
    },
}

/// The command that the words are, without the program's name; `None` where they are no command.
pub fn read_words(words: &[String]) -> Option<Command<'_>>
    ensures command { MatchOption result (command_of (words_of words.now) ≡ None)
        (λ command. command_of (words_of words.now) ≡ Some (spoken_of command)) }
    ensures objects { IfSome result (λ command. HasObjects (spoken_of command)) }
{
    let [verb, rest @ ..] = words else {
        return None;
    };
    if verb.as_str() == "resolve" {
        resolve(rest)
    } else {
        by_verb(verb.as_str(), rest)
    }
}

fn resolve(words: &[String]) -> Option<Command<'_>>
    ensures command { option_map spoken_of result ≡ resolve_of (words_of words.now) }
    ensures objects { IfSome result (λ command. HasObjects (spoken_of command)) }
{
    let [out, objects @ ..] = words else {
        return None;
    };
    if is_file_name(out.as_str()) && are_objects(objects) {
        Some(Command::Resolve {
            out: out.as_str(),
            objects,
        })
    } else {
        None
    }
}

fn by_verb<'a>(verb: &str, words: &'a [String]) -> Option<Command<'a>>
    ensures command { option_map spoken_of result ≡ command_by verb.now (words_of words.now) }
    ensures objects { IfSome result (λ command. HasObjects (spoken_of command)) }
{
    match words {
        [file] => of_one(verb, file.as_str()),
        [input, out] => made_from(verb, input.as_str(), out.as_str()),
        [first, second, third] => of_three(verb, first.as_str(), second.as_str(), third.as_str()),
        [program, steps, input, out] => run_by(
            verb,
            program.as_str(),
            steps.as_str(),
            input.as_str(),
            out.as_str(),
        ),
        _ => None,
    }
}

fn of_one<'a>(verb: &str, file: &'a str) -> Option<Command<'a>>
    ensures command { option_map spoken_of result ≡ command_by verb.now (file.now ∷ []) }
    ensures objects { IfSome result (λ command. HasObjects (spoken_of command)) }
{
    if !is_file_name(file) {
        return None;
    }
    match verb {
        "show" => Some(Command::Show { object: file }),
        "link" => Some(Command::Link { jobs: file }),
        _ => None,
    }
}

fn made_from<'a>(verb: &str, input: &'a str, out: &'a str) -> Option<Command<'a>>
    ensures command { option_map spoken_of result ≡ command_by verb.now (input.now ∷ out.now ∷ []) }
    ensures objects { IfSome result (λ command. HasObjects (spoken_of command)) }
{
    if !is_file_name(input) || !is_file_name(out) {
        return None;
    }
    match verb {
        "cc" => Some(Command::Cc { input, out }),
        "lgen" => Some(Command::Lgen { input, out }),
        "batch" => Some(Command::Batch {
            jobs: input,
            trace: out,
        }),
        _ => None,
    }
}

fn of_three<'a>(verb: &str, first: &'a str, second: &'a str, third: &'a str) -> Option<Command<'a>>
    ensures command { option_map spoken_of result ≡ command_by verb.now (first.now ∷ second.now ∷ third.now ∷ []) }
    ensures objects { IfSome result (λ command. HasObjects (spoken_of command)) }
{
    if verb == "gen" {
        return generate(first, second, third);
    }
    if verb == "replay" && is_file_name(first) && is_file_name(second) && is_file_name(third) {
        Some(Command::Replay {
            jobs: first,
            schedule: second,
            trace: third,
        })
    } else {
        None
    }
}

fn generate<'a>(seed: &str, count: &str, prefix: &'a str) -> Option<Command<'a>>
    ensures command { option_map spoken_of result ≡ gen_of seed.now count.now prefix.now }
    ensures objects { IfSome result (λ command. HasObjects (spoken_of command)) }
{
    let seed = decimal(seed.as_bytes())?;
    let count = decimal(count.as_bytes())?;
    if 1 <= count && count <= 4000 && is_prefix(prefix) {
        Some(Command::Gen {
            seed,
            count,
            prefix,
        })
    } else {
        None
    }
}

fn run_by<'a>(
    verb: &str,
    program: &'a str,
    steps: &str,
    input: &'a str,
    out: &'a str,
) -> Option<Command<'a>>
    ensures command { option_map spoken_of result ≡ command_by verb.now (program.now ∷ steps.now ∷ input.now ∷ out.now ∷ []) }
    ensures objects { IfSome result (λ command. HasObjects (spoken_of command)) }
{
    if !is_file_name(program) || !is_file_name(input) || !is_file_name(out) {
        return None;
    }
    let steps = decimal(steps.as_bytes())?;
    match verb {
        "run" => Some(Command::Run {
            image: program,
            steps,
            input,
            out,
        }),
        "interp" => Some(Command::Interp {
            jobs: program,
            steps,
            input,
            out,
        }),
        _ => None,
    }
}

fn is_file_name(word: &str) -> bool
    ensures { result ≡ is_file_name word.now }
{
    0 < word.len() && word.len() <= 255 && is_printable(word.as_bytes())
}

fn is_prefix(word: &str) -> bool
    ensures { result ≡ is_prefix word.now }
{
    0 < word.len() && word.len() <= 200 && is_printable(word.as_bytes())
}

fn all_file_names(words: &[String]) -> bool
    ensures { result ≡ list_all (λ word. is_file_name (string_bytes word)) words.now }
{
    words.iter().all(|word| is_file_name(word.as_str()))
}

// Whether there are 1 to 256 words, all of which are file names.
fn are_objects(words: &[String]) -> bool
    ensures { result ≡ are_objects (words_of words.now) }
{
    0 < words.len() && words.len() <= 256 && all_file_names(words)
}

fn is_printable(bytes: &[u8]) -> bool
    ensures { result ≡ list_all is_printable bytes.now }
{
    bytes.iter().all(|byte| 0x21 <= *byte && *byte <= 0x7e)
}
