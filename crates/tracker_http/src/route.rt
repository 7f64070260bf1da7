// The paths that are served.
ghost use Rattle.std.specs.Prelude.{◌≡◌, ◌≤◌, take, drop, length, option_map};
ghost use Rattle.tracker_http.specs.Routes.{before, path_of, begins_with, is_name_then, is_under, is_path, route_of, verb_of, path_verb};

use crate::verb::Verb;

/// What a path asks for.
#[derive(Clone, Copy, PartialEq, Eq)]
pub enum Route {
    Calls,
    Issue,
    History,
    Search,
    Filter,
    Board,
    Burndown,
}

impl Route {
    /// The method of the paths of this route.
    pub fn verb(self) -> Verb
        ensures { result ≡ verb_of self }
    {
        match self {
            Route::Calls => Verb::Post,
            Route::Issue
            | Route::History
            | Route::Search
            | Route::Filter
            | Route::Board
            | Route::Burndown => Verb::Get,
        }
    }
}

/// How many bytes stand before the first such byte.
pub fn before(bytes: &[u8], mark: u8) -> usize
    ensures is { result ≡ length (before mark bytes.now) }
    ensures front { take result bytes.now ≡ before mark bytes.now }
    ensures within { result ≤ length bytes.now }
{
    for (at, byte) in bytes.iter().enumerate() {
        if *byte == mark {
            return at;
        }
    }
    bytes.len()
}

/// The path of a target.
pub fn path_of(target: &[u8]) -> &[u8]
    ensures { result.now ≡ path_of target.now }
{
    let (path, _) = target.split_at(before(target, b'?'));
    path
}

// Whether a name stands there, and then the back.
fn is_name_then(rest: &[u8], back: &[u8]) -> bool
    ensures { result ≡ is_name_then back.now rest.now }
{
    let count = before(rest, b'/');
    let (_, after) = rest.split_at(count);
    0 < count && after == back
}

// Whether the path is the front, a name, and the back.
#[tactic(auto, unfolding(crate::specs::Routes::is_under))]
fn is_under(path: &[u8], front: &[u8], back: &[u8]) -> bool
    ensures { result ≡ is_under front.now back.now path.now }
{
    if path.len() < front.len() {
        return false;
    }
    let (begin, rest) = path.split_at(front.len());
    begin == front && is_name_then(rest, back)
}

// Whether the path is that text.
#[tactic(auto, unfolding(crate::specs::Routes::is_path))]
fn is_path(path: &[u8], text: &[u8]) -> bool
    ensures { result ≡ is_path text.now path.now }
{
    path == text
}

/// The route of a path.
#[tactic(auto, unfolding(crate::specs::Routes::route_of))]
pub fn route_of(path: &[u8]) -> Option<Route>
    ensures { result ≡ route_of path.now }
{
    if is_path(path, b"/calls") {
        return Some(Route::Calls);
    }
    if is_path(path, b"/search") {
        return Some(Route::Search);
    }
    if is_under(path, b"/issues/", b"") {
        return Some(Route::Issue);
    }
    if is_under(path, b"/issues/", b"/history") {
        return Some(Route::History);
    }
    if is_under(path, b"/filters/", b"") {
        return Some(Route::Filter);
    }
    if is_under(path, b"/boards/", b"") {
        return Some(Route::Board);
    }
    if is_under(path, b"/sprints/", b"/burndown") {
        return Some(Route::Burndown);
    }
    None
}

/// The method of a path that is served.
pub fn path_verb(path: &[u8]) -> Option<Verb>
    ensures { result ≡ path_verb path.now }
{
    match route_of(path) {
        Some(route) => Some(route.verb()),
        None => None,
    }
}
