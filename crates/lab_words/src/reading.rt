//! What the words ask for.
ghost use Rattle.std.specs.Prelude.{◌≡◌, ◌≢◌, ℕ, List, true, [], ◌∷◌, ◌↔◌, ◌≤◌, ◌<◌, ◌^◌, map, IfSome, Some, codes, string_bytes, decimal};
ghost use Rattle.rssd_words.specs.declared.command.Command.{Command as Ordered};
ghost use Rattle.rssd_words.specs.Commands.{words_of as command_words};
ghost use Rattle.lab_lines.specs.declared.kind.Kind.{Kind as Chosen};
ghost use Rattle.lab_words.specs.declared.asked.Asked.{Asked as Order};
ghost use Rattle.lab_words.specs.declared.asked.AskedDie.{AskedDie as Wanted};
ghost use Rattle.lab_words.specs.declared.asked.DieFrom.{DieFrom as Place};
ghost use Rattle.lab_words.specs.declared.asked.Voice.{Voice as Told};
ghost use Rattle.lab_words.specs.Orders.{kind_word, voice_word, words_of, die_words, command_on, spelled_front, IsDrawnWithin, IsDieWithin, IsFromWithin, IsWithin, from_words};

use crate::{Asked, AskedDie, DieFrom, DieKind, LinesFrom, Voice};
use lab_lines::Kind;
use rssd_words::{Command, read_head, read_number, read_small, read_words as read_command};

/// The die on which a command of `rssd` plays, where that is none of a head alone.
fn of_command(command: Option<Command>) -> Option<AskedDie>
    ensures found { IfSome result (λ die. (command ≡ Some (command_on die.head die.kind)) × (die.kind ≢ DieKind.Plain)) }
    ensures only { (die : Wanted) → die.kind ≢ DieKind.Plain → command ≡ Some (command_on die.head die.kind) → result ≡ Some die }
{
    match command {
        Some(Command::Worn { head, reserve, bad }) => Some(AskedDie {
            head,
            kind: DieKind::Worn { reserve, bad },
        }),
        Some(Command::Pair(head)) => Some(AskedDie {
            head,
            kind: DieKind::Pair,
        }),
        _ => None,
    }
}

/// The plain die whose head the words spell.
fn read_plain(words: &[String]) -> Option<AskedDie>
    ensures found { IfSome result (λ die. IsDieWithin die × (map string_bytes words.now ≡ die_words die)) }
    ensures kind { IfSome result (λ die. die.kind ≡ DieKind.Plain) }
    ensures only { (die : Wanted) → die.kind ≡ DieKind.Plain → IsDieWithin die → map string_bytes words.now ≡ die_words die → result ≡ Some die }
{
    let head = read_head(words)?;
    Some(AskedDie {
        head,
        kind: DieKind::Plain,
    })
}

/// The blank die that the words spell: the words of its head, or those of the command `worn` or `pair` of `rssd`.
fn read_blank(words: &[String]) -> Option<AskedDie>
    ensures found { IfSome result (λ die. IsDieWithin die × (map string_bytes words.now ≡ die_words die)) }
    ensures only { (die : Wanted) → IsDieWithin die → map string_bytes words.now ≡ die_words die → result ≡ Some die }
{
    match read_plain(words) {
        Some(die) => Some(die),
        None => of_command(read_command(words)),
    }
}

/// Whether the words are those of the command `run` of `rssd`.
fn is_run(words: &[String]) -> bool
    ensures { result ≡ true ↔ map string_bytes words.now ≡ command_words Ordered.Run }
{
    matches!(read_command(words), Some(Command::Run))
}

/// The die that the words spell: that of an image, or a blank one.
fn read_die(words: &[String]) -> Option<DieFrom>
    ensures found { IfSome result (λ die. IsFromWithin die × (map string_bytes words.now ≡ from_words die)) }
    ensures only { (die : Place) → IsFromWithin die → map string_bytes words.now ≡ from_words die → result ≡ Some die }
{
    if is_run(words) {
        Some(DieFrom::Image)
    } else {
        match read_blank(words) {
            Some(die) => Some(DieFrom::Blank(die)),
            None => None,
        }
    }
}

/// The kind of workload that a word names.
#[tactic(auto, unfolding(crate::specs::Orders::kind_word))]
fn read_kind(word: &str) -> Option<Kind>
    ensures found { IfSome result (λ kind. word.now ≡ kind_word kind) }
    ensures only { (kind : Chosen) → word.now ≡ kind_word kind → result ≡ Some kind }
{
    match word {
        "uniform" => Some(Kind::Uniform),
        "hot" => Some(Kind::Hot),
        "zipf" => Some(Kind::Zipf),
        "sequential" => Some(Kind::Sequential),
        "mixed" => Some(Kind::Mixed),
        _ => None,
    }
}

/// The voice that a word names.
#[tactic(auto, unfolding(crate::specs::Orders::voice_word))]
fn read_voice(word: &str) -> Option<Voice>
    ensures found { IfSome result (λ voice. word.now ≡ voice_word voice) }
    ensures only { (voice : Told) → word.now ≡ voice_word voice → result ≡ Some voice }
{
    match word {
        "loud" => Some(Voice::Loud),
        "quiet" => Some(Voice::Quiet),
        "progress" => Some(Voice::Progress),
        _ => None,
    }
}

/// The number of a word, which is not 0.
fn read_every(word: &str) -> Option<u64>
    ensures found { IfSome result (λ n. (1 ≤ n) × (n < 2 ^ 64) × (word.now ≡ decimal n)) }
    ensures only { (n : ℕ) → 1 ≤ n → n < 2 ^ 64 → word.now ≡ decimal n → result ≡ Some n }
{
    let every = read_number(word)?;
    if every == 0 { None } else { Some(every) }
}

/// The number of a word, at most a thousand.
fn read_idle(word: &str) -> Option<u32>
    ensures found { IfSome result (λ n. (n ≤ 1_000) × (word.now ≡ decimal n)) }
    ensures only { (n : ℕ) → n ≤ 1_000 → word.now ≡ decimal n → result ≡ Some n }
{
    let idle = read_small(word)?;
    if idle <= 1_000 { Some(idle) } else { None }
}

/// The lines of a workload with these numbers.
fn read_numbers(kind: &str, seed: &str, count: &str, idle: &str) -> Option<LinesFrom>
    ensures found { IfSome result (λ from. IsDrawnWithin from × ((voice every : List ℕ) (rest : List (List ℕ))
        → codes "draw" ∷ voice ∷ kind.now ∷ seed.now ∷ count.now ∷ idle.now ∷ every ∷ rest ≡ spelled_front from voice every rest)) }
    ensures only { (k : Chosen) (s n i : ℕ) → IsDrawnWithin (LinesFrom.Drawn k s n i)
        → kind.now ≡ kind_word k → seed.now ≡ decimal s → count.now ≡ decimal n → idle.now ≡ decimal i → result ≡ Some (LinesFrom.Drawn k s n i) }
{
    Some(LinesFrom::Drawn {
        kind: read_kind(kind)?,
        seed: read_number(seed)?,
        count: read_number(count)?,
        idle: read_idle(idle)?,
    })
}

/// An order for these lines, with a voice and a number, and a die.
fn order(from: Option<LinesFrom>, voice: &str, every: &str, die: Option<DieFrom>) -> Option<Asked>
    requires from { IfSome from (λ f. IsDrawnWithin f) }
    requires die { IfSome die (λ d. IsFromWithin d) }
    ensures within { IfSome result (λ asked. IsWithin asked) }
    ensures from { IfSome result (λ asked. from ≡ Some asked.from) }
    ensures voice { IfSome result (λ asked. voice.now ≡ voice_word asked.voice) }
    ensures every { IfSome result (λ asked. every.now ≡ decimal asked.every) }
    ensures die { IfSome result (λ asked. die ≡ Some asked.die) }
    ensures only { (asked : Order) → IsWithin asked → from ≡ Some asked.from → voice.now ≡ voice_word asked.voice → every.now ≡ decimal asked.every
        → die ≡ Some asked.die → result ≡ Some asked }
{
    Some(Asked {
        from: from?,
        voice: read_voice(voice)?,
        every: read_every(every)?,
        die: die?,
    })
}

/// The order that the words behind `play` spell: VOICE EVERY DIE.
fn read_play(words: &[String]) -> Option<Asked>
    ensures found { IfSome result (λ asked. IsWithin asked × (codes "play" ∷ map string_bytes words.now ≡ words_of asked)) }
    ensures only { (asked : Order) → IsWithin asked → codes "play" ∷ map string_bytes words.now ≡ words_of asked → result ≡ Some asked }
{
    match words {
        [voice, every, die @ ..] => {
            let die = read_die(die);
            order(Some(LinesFrom::Stream), voice.as_str(), every.as_str(), die)
        }
        _ => None,
    }
}

/// The order that the words behind `draw` spell: VOICE KIND SEED COUNT IDLE EVERY DIE.
fn read_draw(words: &[String]) -> Option<Asked>
    ensures found { IfSome result (λ asked. IsWithin asked × (codes "draw" ∷ map string_bytes words.now ≡ words_of asked)) }
    ensures only { (asked : Order) → IsWithin asked → codes "draw" ∷ map string_bytes words.now ≡ words_of asked → result ≡ Some asked }
{
    match words {
        [voice, kind, seed, count, idle, every, die @ ..] => {
            let from = read_numbers(kind.as_str(), seed.as_str(), count.as_str(), idle.as_str());
            let die = read_die(die);
            order(from, voice.as_str(), every.as_str(), die)
        }
        _ => None,
    }
}

/// What the words ask for: `play VOICE EVERY DIE`, or `draw VOICE KIND SEED COUNT IDLE EVERY DIE`, where DIE is HEAD,
/// `worn HEAD RESERVE BAD`, `pair HEAD` or `run`, and HEAD is SCHEME BLOCKS PAGES SECTORS REUSE.
pub fn read_words(words: &[String]) -> Option<Asked>
    ensures found { IfSome result (λ asked. IsWithin asked × (map string_bytes words.now ≡ words_of asked)) }
    ensures only { (asked : Order) → IsWithin asked → map string_bytes words.now ≡ words_of asked → result ≡ Some asked }
{
    match words {
        [name, behind @ ..] => match name.as_str() {
            "play" => read_play(behind),
            "draw" => read_draw(behind),
            _ => None,
        },
        _ => None,
    }
}
