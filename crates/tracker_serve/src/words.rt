// The words `serve PORT WORKERS`.
ghost use Rattle.std.specs.Prelude.{◌≡◌, ◌≤◌, ◌↔◌, ℕ, decimal, map, string_bytes, IfSome, IfNone, IsTrue};
ghost use Rattle.tracker_cli.specs.Numerals.{IsNumberOf};
ghost use Rattle.tracker_serve.specs.Serving.{IsServe};

use itoa::Buffer;

/// The last port.
const LAST_PORT: u32 = 65_535;

/// The most workers of a server.
const MOST_WORKERS: u32 = 16;

/// How many workers the words `serve PORT WORKERS` ask for; `None` exactly where the words are others.
pub fn workers_in(words: &[String]) -> Option<u32>
    ensures some { IfSome result (λ workers. (port : ℕ) × IsServe (map string_bytes words.now) port workers) }
    ensures none { IfNone result ((port workers : ℕ) → ¬ IsServe (map string_bytes words.now) port workers) }
    ensures few { IfSome result (λ workers. (1 ≤ workers) × (workers ≤ 16)) }
{
    match words {
        [word, port, workers] => {
            if word.as_str() == "serve" {
                return numbers_in(port.as_str(), workers.as_str());
            }
            None
        }
        _ => None,
    }
}

// The number of workers of these two words, where both are numbers.
fn numbers_in(port: &str, workers: &str) -> Option<u32>
    ensures some { IfSome result (λ count. (number : ℕ) × IsNumberOf 1 65_535 port.now number
        × IsNumberOf 1 16 workers.now count) }
    ensures none { IfNone result ((number count : ℕ) → IsNumberOf 1 65_535 port.now number
        → ¬ IsNumberOf 1 16 workers.now count) }
    ensures few { IfSome result (λ count. (1 ≤ count) × (count ≤ 16)) }
{
    let Some(_number) = number_in(port, 1, LAST_PORT) else {
        return None;
    };
    let Some(count) = number_in(workers, 1, MOST_WORKERS) else {
        return None;
    };
    Some(count)
}

// The number of a word, between bounds, in digits with no zero before them.
fn number_in(word: &str, least: u32, most: u32) -> Option<u32>
    ensures some { IfSome result (IsNumberOf least most word.now) }
    ensures none { IfNone result ((n : ℕ) → ¬ IsNumberOf least most word.now n) }
{
    match word.parse::<u32>() {
        Ok(n) if least <= n && n <= most && is_digits_of(word, n) => Some(n),
        _ => None,
    }
}

fn is_digits_of(word: &str, n: u32) -> bool
    ensures { IsTrue result ↔ (word.now ≡ decimal n) }
{
    let mut buffer = Buffer::new();
    buffer.format(n) == word
}
