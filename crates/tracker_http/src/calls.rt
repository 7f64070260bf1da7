// Which call a request asks for.
ghost use Rattle.std.specs.Prelude.{◌≡◌, codes, Some};
ghost use Rattle.call_lines.specs.Asked.{UnlessMemory, need};
ghost use Rattle.tracker_http.specs.Calls.{user_of, query_of, got, path_call, asked_of};
ghost use Rattle.tracker_http.specs.Query.{pairs_of};
ghost use Rattle.tracker_http.specs.Routes.{path_of, route_of, verb_of, path_verb};
ghost use Rattle.tracker_http.specs.declared.verb.Verb.TheVariants.{Get};

use crate::got::{ListOf, history_of, list_of, search_of, show_of};
use crate::named::{query_of, user_of};
use crate::query::{Pair, pairs_of};
use crate::request::Request;
use crate::route::{Route, path_of, route_of};
use crate::verb::Verb;
use call_lines::{misses, read_body};
use std::alloc::Global;
use tracker_calls::{Call, Refusal, UserName};

/// The user and the call of a request, or the first fault of its form.
#[tactic(auto, unfolding(crate::specs::Calls::asked_of))]
pub fn call_of(alloc: Global, request: &Request) -> Result<(UserName, Call), Refusal>
    requires { path_verb (path_of request.now.target) ≡ Some request.now.verb }
    ensures { UnlessMemory result (asked_of request.now) }
{
    match request.verb {
        Verb::Post => read_body(alloc, request.body.as_slice(), user_of(request)),
        Verb::Get => get_call(alloc, request),
    }
}

// What is got.
fn get_call(alloc: Global, request: &Request) -> Result<(UserName, Call), Refusal>
    requires { path_verb (path_of request.now.target) ≡ Some Get }
    ensures { UnlessMemory result (need (user_of request.now) (codes "user")
        (path_call (route_of (path_of request.now.target)) (path_of request.now.target)
        (pairs_of (query_of request.now.target)))) }
{
    let Some(user) = user_of(request) else {
        return misses(alloc, "user");
    };
    target_call(alloc, request.target.as_slice(), user)
}

fn target_call(alloc: Global, target: &[u8], user: &str) -> Result<(UserName, Call), Refusal>
    requires { path_verb (path_of target.now) ≡ Some Get }
    ensures { UnlessMemory result (path_call (route_of (path_of target.now)) (path_of target.now)
        (pairs_of (query_of target.now)) user.now) }
{
    let path = path_of(target);
    let pairs = pairs_of(alloc, query_of(target))?;
    let asked = path_call(alloc, path, pairs.as_slice(), user);
    drop(pairs);
    asked
}

fn path_call(
    alloc: Global,
    path: &[u8],
    pairs: &[Pair],
    user: &str,
) -> Result<(UserName, Call), Refusal>
    requires { path_verb path.now ≡ Some Get }
    ensures { UnlessMemory result (path_call (route_of path.now) path.now pairs.now user.now) }
{
    match route_of(path) {
        Some(route) => got(alloc, route, path, pairs, user),
        None => unreachable!(),
    }
}

// The call of a path that is got.
fn got(
    alloc: Global,
    route: Route,
    path: &[u8],
    pairs: &[Pair],
    user: &str,
) -> Result<(UserName, Call), Refusal>
    requires { verb_of route ≡ Get }
    ensures { UnlessMemory result (got route path.now pairs.now user.now) }
{
    match route {
        Route::Calls => unreachable!(),
        Route::Issue => show_of(alloc, path, pairs, user),
        Route::History => history_of(alloc, path, pairs, user),
        Route::Search => search_of(alloc, pairs, user),
        Route::Filter => list_of(alloc, ListOf::Filter, path, pairs, user),
        Route::Board => list_of(alloc, ListOf::Board, path, pairs, user),
        Route::Burndown => list_of(alloc, ListOf::Sprint, path, pairs, user),
    }
}
