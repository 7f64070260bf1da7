use crate::rows::{Answer, all_answer};
use std::alloc::Global;

/// Where the tracker stands, issues and change groups.
const TRACKED: &str = r#"2 0 {"balance":[0],"change":0,"format":2,"moment":0}
2 0 {"balance":[1],"change":1,"format":1,"moment":0}
2 0 {"balance":[2],"change":12,"format":2,"moment":1709251200}
2 0 {"balance":[0,1],"change":3,"format":2,"moment":5}
2 0 {"balance":[1,2],"change":3,"format":2,"moment":5}
2 0 {"balance":[2,0],"change":3,"format":2,"moment":5}
2 0 {"balance":[0],"change":18446744073709551615,"format":2,"moment":4102444799}
2 0 {"balance":[0],"change":9,"format":1,"moment":10}
2 0 {"balance":[2,0],"change":0,"format":1,"moment":0}
2 0 {"balance":[1],"change":2552000,"format":2,"moment":1}
3 1 {"at":0,"author":"anna","change":1,"fields":{"points":"3","reporter":"anna","status":"Open","summary":"Fix login","type":"Task"},"key":"OPS-1"}
3 1 {"at":0,"author":"anna","change":1,"fields":{},"key":"OPS-1"}
3 2 {"at":60,"author":"bo","change":2,"fields":{"assignee":"bo","type":"Bug"},"key":"OPS-2"}
3 3 {"at":61,"author":"cy","change":7,"fields":{"due":"2024-03-31"},"key":"OPS-3"}
3 4 {"at":62,"author":"root","change":8,"fields":{"fixVersion":["1.0","1.1"]},"key":"OPS-4"}
3 5 {"at":63,"author":"anna","change":9,"fields":{"labels":["a","b"]},"key":"OPS-5"}
3 6 {"at":64,"author":"anna","change":10,"fields":{"priority":"High","resolution":"Fixed"},"key":"OPS-6"}
3 7 {"at":65,"author":"anna","change":11,"fields":{"sprint":1},"key":"OPS-7"}
3 8 {"at":66,"author":"anna","change":12,"fields":{"description":"a\nb\t\"c\" \\ é"},"key":"OPS-8"}
3 4294967295 {"at":4102444799,"author":"anna","change":18446744073709551615,"fields":{"assignee":"anna","description":"d","due":"2099-12-31","fixVersion":["1.1"],"labels":["x"],"points":"0.5","priority":"Low","reporter":"cy","resolution":"Declined","sprint":4294967295,"status":"Done","summary":"s","type":"Task"},"key":"OPS-4294967295"}
4 7 {"at":60,"author":"anna","entries":[["status","Open","In Progress"],["assignee",null,"anna"]],"issue":1}
4 8 {"at":61,"author":"bo","entries":[["points","3","2.5"]],"issue":1}
4 9 {"at":62,"author":"anna","entries":[["due",null,"1970-01-01"]],"issue":2}
4 10 {"at":63,"author":"anna","entries":[["fixVersion",["1.0"],["1.0","1.1"]]],"issue":3}
4 11 {"at":64,"author":"anna","entries":[["labels",["a"],null]],"issue":4}
4 12 {"at":65,"author":"anna","entries":[["sprint",1,2]],"issue":5}
4 13 {"at":66,"author":"anna","entries":[["summary","one","two"],["resolution",null,"Fixed"]],"issue":6}
4 14 {"at":67,"author":"anna","entries":[["type","Task","Bug"],["priority","Low","High"],["reporter","cy","root"]],"issue":7}
4 15 {"at":68,"author":"anna","entries":[],"issue":8}
4 18446744073709551615 {"at":4102444799,"author":"cy","entries":[["description","a\\b",null]],"issue":4294967295}"#;

/// Ranks, external ids, sprints, filters, boards and members.
const OTHERS: &str = r#"5 1 0|i00000:
5 2 0|i006bk:
5 3 0|hzztog:
5 4 1|r00000:
5 5 2|900000:
5 6 0|i00000:0i
5 7 0|zzzzzz:i
5 8 0|000000:i
5 9 0|000001:
5 4294967295 1|qzztog:
6 1 X-1
6 2 a
6 3 0123456789012345678901234567890123456789012345678901234567890123
6 4 ~
6 5  
6 6 a b
6 7 0
6 8 {"x":1}
6 9 X-1\
6 4294967295 "
7 1 {"close":null,"name":"March","start":null}
7 2 {"close":null,"name":"S","start":[0,0]}
7 3 {"close":null,"name":"S","start":[60,6]}
7 4 {"close":[120,8],"name":"S","start":[60,6]}
7 5 {"close":[60,6],"name":"S","start":[120,8]}
7 6 {"close":null,"name":"Été","start":null}
7 7 {"close":null,"name":"a \"b\" \\","start":null}
7 8 {"close":null,"name":" ","start":[4102444799,18446744073709551615]}
7 9 {"close":[4102444799,18446744073709551615],"name":"0","start":[0,0]}
7 4294967295 {"close":null,"name":"0123456789012345678901234567890123456789012345678901234567890123456789012345678901234567890123456789","start":null}
8 1 {"jql":"","name":"all","owner":"anna"}
8 2 {"jql":"status = Open","name":"open","owner":"bo"}
8 3 {"jql":"summary ~ \"x\"","name":"mine","owner":"cy"}
8 4 {"jql":"summary ~ \"\\\"x\\\"\"","name":"quoted","owner":"root"}
8 5 {"jql":"labels = é","name":"é","owner":"anna"}
8 6 {"jql":"a / b","name":"a / b","owner":"anna"}
8 7 {"jql":"a\nb","name":"lines","owner":"anna"}
8 8 {"jql":"ORDER BY rank","name":"by rank","owner":"anna"}
8 9 {"jql":"no query (","name":"odd","owner":"anna"}
8 4294967295 {"jql":" ","name":" ","owner":"root"}
9 1 {"filter":1,"name":"team"}
9 2 {"filter":0,"name":"none"}
9 3 {"filter":4294967295,"name":"last"}
9 4 {"filter":2,"name":"Été"}
9 5 {"filter":2,"name":"\"quoted\""}
9 6 {"filter":2,"name":"back\\slash"}
9 7 {"filter":2,"name":" "}
9 8 {"filter":10,"name":"a/b"}
9 9 {"filter":100,"name":"0"}
9 4294967295 {"filter":7,"name":"0123456789012345678901234567890123456789012345678901234567890123456789012345678901234567890123456789"}
10 1 {"members":["anna","bo","root"]}
10 1 {"members":[]}
10 2 {"members":["anna","root"]}
10 2 {"members":["anna"]}
10 3 {"members":["cy"]}
10 3 {"members":["anna","bo","cy","root"]}
10 3 {"members":["bo","cy"]}
10 2 {"members":["root"]}
10 1 {"members":["anna","cy","root"]}
10 1 {"members":["bo","root"]}"#;

fn are_bodies(alloc: Global) -> bool {
    all_answer(alloc, TRACKED, Answer::Body) && all_answer(alloc, OTHERS, Answer::Body)
}

#[test]
fn bodies_are_read_and_written_back(rt: HostRuntime) {
    let passes = are_bodies(rt.alloc());
    assert!(rt; passes);
}
