// Where a head ends.
ghost use Rattle.std.specs.Prelude.{◌≡◌, Some, None};
ghost use Rattle.tracker_http.specs.HeadEnd.{head_len};
ghost use Rattle.tracker_http.specs.HeadPlaces.{next_place, len_from};

/// A place in a head that is read a byte at a time.
#[derive(Clone, Copy, PartialEq, Eq)]
pub enum HeadPlace {
    /// At the start of a line, before the request line.
    Before,

    /// There, after a carriage return.
    BeforeReturn,

    /// Inside a line that isn't empty.
    Inside,

    /// At the start of a line behind the request line.
    Start,

    /// There, after a carriage return.
    StartReturn,
}

// Where a byte leads, or None where it ends the head.
fn next_place(place: HeadPlace, byte: u8) -> Option<HeadPlace>
    ensures { result ≡ next_place place byte }
{
    match place {
        HeadPlace::Before => match byte {
            b'\n' => Some(HeadPlace::Before),
            b'\r' => Some(HeadPlace::BeforeReturn),
            _ => Some(HeadPlace::Inside),
        },
        HeadPlace::BeforeReturn => match byte {
            b'\n' => Some(HeadPlace::Before),
            _ => Some(HeadPlace::Inside),
        },
        HeadPlace::Inside => match byte {
            b'\n' => Some(HeadPlace::Start),
            _ => Some(HeadPlace::Inside),
        },
        HeadPlace::Start => match byte {
            b'\n' => None,
            b'\r' => Some(HeadPlace::StartReturn),
            _ => Some(HeadPlace::Inside),
        },
        HeadPlace::StartReturn => match byte {
            b'\n' => None,
            _ => Some(HeadPlace::Inside),
        },
    }
}

/// How many bytes the whole head has with which these bytes begin, where they do.
pub fn head_len(bytes: &[u8]) -> Option<usize>
    ensures { result ≡ head_len bytes.now }
{
    let mut place = HeadPlace::Before;
    for (at, byte) in bytes.iter().enumerate() {
        let Some(next) = next_place(place, *byte) else {
            return Some(at + 1);
        };
        place = next;
    }
    None
}
