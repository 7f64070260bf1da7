/// The lines of an ordinary day of a team.
pub(crate) const DAY: [&str; 18] = [
    r#"{"user":"anna","call":"tick","to":1709251200}"#,
    r#"{"user":"anna","call":"create","project":"OPS","type":"Task","summary":"Fix login","set":{"points":"3"}}"#,
    r#"{"user":"anna","call":"create","project":"OPS","type":"Task","summary":"Write guide","set":{"points":"2"}}"#,
    r#"{"user":"anna","call":"create","project":"OPS","type":"Bug","summary":"Crash on start","set":{"points":"1.5"}}"#,
    r#"{"user":"anna","call":"create","project":"OPS","type":"Task","summary":"Tidy up"}"#,
    r#"{"user":"anna","call":"make_sprint","name":"March"}"#,
    r#"{"user":"anna","call":"edit","issue":"OPS-1","set":{"sprint":1}}"#,
    r#"{"user":"anna","call":"edit","issue":"OPS-3","set":{"sprint":1}}"#,
    r#"{"user":"anna","call":"start_sprint","sprint":1}"#,
    r#"{"user":"anna","call":"save_filter","name":"open work","jql":"resolution = Unresolved AND sprint IN openSprints() ORDER BY key DESC"}"#,
    r#"{"user":"anna","call":"make_board","name":"team","filter":1}"#,
    r#"{"user":"anna","call":"tick","to":1709254800}"#,
    r#"{"user":"anna","call":"transition","issue":"OPS-1","transition":"Start"}"#,
    r#"{"user":"anna","call":"transition","issue":"OPS-1","transition":"Finish"}"#,
    r#"{"user":"anna","call":"move_before","issue":"OPS-3","other":"OPS-1"}"#,
    r#"{"user":"anna","call":"filter","filter":1}"#,
    r#"{"user":"anna","call":"board","board":1}"#,
    r#"{"user":"anna","call":"burndown","sprint":1}"#,
];

/// The line of the reply at which the keeper failed.
pub(crate) const FAILED: &[u8] = b"{\"refused\":{\"no\":14}}\n";
