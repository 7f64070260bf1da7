use crate::rows::{Answer, all_answer};
use std::alloc::Global;

/// Nearly where the tracker stands, nearly issues and nearly change groups.
const TRACKED: &str = r#"2 1 {"balance":[0],"change":0,"format":2,"moment":0}
2 0 {"balance":[3],"change":0,"format":2,"moment":0}
2 0 {"balance":[0,2],"change":0,"format":2,"moment":0}
2 0 {"balance":[1,0],"change":0,"format":2,"moment":0}
2 0 {"balance":[],"change":0,"format":2,"moment":0}
2 0 {"balance":[0,1,2],"change":0,"format":2,"moment":0}
2 0 {"balance":[00],"change":0,"format":2,"moment":0}
2 0 {"balance":0,"change":0,"format":2,"moment":0}
2 0 {"balance":[0],"change":0,"format":0,"moment":0}
2 0 {"balance":[0],"change":0,"format":3,"moment":0}
2 0 {"balance":[0],"change":0,"format":"2","moment":0}
2 0 {"balance":[0],"change":0,"format":2,"moment":4102444800}
2 0 {"balance":[0],"change":18446744073709551616,"format":2,"moment":0}
2 0 {"balance":[0],"change":-0,"format":2,"moment":0}
2 0 {"balance":[0],"change":01,"format":2,"moment":0}
2 0 {"balance":[0],"change":1.0,"format":2,"moment":0}
2 0 {"balance":[0],"change":1e0,"format":2,"moment":0}
2 0 {"balance":[0], "change":0,"format":2,"moment":0}
2 0 {"balance":[0],"change":0,"format":2,"moment":0} 
2 0  {"balance":[0],"change":0,"format":2,"moment":0}
2 0 {"change":0,"balance":[0],"format":2,"moment":0}
2 0 {"balance":[0],"change":0,"format":2,"moment":0,"x":1}
2 0 {"balance":[0],"change":0,"change":0,"format":2,"moment":0}
2 0 {"balance":[0],"change":0,"format":2}
2 0 {"balance":[0],"change":null,"format":2,"moment":0}
2 0 {"Balance":[0],"change":0,"format":2,"moment":0}
2 0 []
2 0 
3 0 {"at":0,"author":"anna","change":1,"fields":{},"key":"OPS-1"}
3 4294967296 {"at":0,"author":"anna","change":1,"fields":{},"key":"OPS-1"}
3 1 {"at":0,"author":"Anna","change":1,"fields":{},"key":"OPS-1"}
3 1 {"at":0,"author":"zed","change":1,"fields":{},"key":"OPS-1"}
3 1 {"at":0,"author":"anna","change":0,"fields":{},"key":"OPS-1"}
3 1 {"at":00,"author":"anna","change":1,"fields":{},"key":"OPS-1"}
3 1 {"at":4102444800,"author":"anna","change":1,"fields":{},"key":"OPS-1"}
3 1 {"at":0,"author":"anna","change":1,"fields":{},"key":"ops-1"}
3 1 {"at":0,"author":"anna","change":1,"fields":{},"key":"OPS-01"}
3 1 {"at":0,"author":"anna","change":1,"fields":{},"key":"OPS-0"}
3 1 {"at":0,"author":"anna","change":1,"fields":{},"key":"OPS-1 "}
3 1 {"at":0,"author":"anna","change":1,"fields":{},"key":"XYZ-1"}
3 1 {"at":0,"author":"anna","change":1,"fields":{},"key":"OPS1"}
3 1 {"at":0,"author":"anna","change":1,"fields":{},"key":"OPS-"}
3 1 {"at":0,"author":"anna","change":1,"fields":{},"key":"OPS--1"}
3 1 {"at":0,"author":"anna","change":1,"fields":{},"key":"OPS-4294967296"}
3 1 {"at":0,"author":"anna","change":1,"fields":{"assignee":null},"key":"OPS-1"}
3 1 {"at":0,"author":"anna","change":1,"fields":{"assignee":""},"key":"OPS-1"}
3 1 {"at":0,"author":"anna","change":1,"fields":{"points":"3.0"},"key":"OPS-1"}
3 1 {"at":0,"author":"anna","change":1,"fields":{"points":"03"},"key":"OPS-1"}
3 1 {"at":0,"author":"anna","change":1,"fields":{"points":3},"key":"OPS-1"}
3 1 {"at":0,"author":"anna","change":1,"fields":{"points":"-1"},"key":"OPS-1"}
3 1 {"at":0,"author":"anna","change":1,"fields":{"status":"open"},"key":"OPS-1"}
3 1 {"at":0,"author":"anna","change":1,"fields":{"status":"Closed"},"key":"OPS-1"}
3 1 {"at":0,"author":"anna","change":1,"fields":{"fixVersion":["1.1","1.0"]},"key":"OPS-1"}
3 1 {"at":0,"author":"anna","change":1,"fields":{"fixVersion":[]},"key":"OPS-1"}
3 1 {"at":0,"author":"anna","change":1,"fields":{"fixVersion":["1.0","1.0"]},"key":"OPS-1"}
3 1 {"at":0,"author":"anna","change":1,"fields":{"fixVersion":"1.0"},"key":"OPS-1"}
3 1 {"at":0,"author":"anna","change":1,"fields":{"fixVersion":"[\"1.0\"]"},"key":"OPS-1"}
3 1 {"at":0,"author":"anna","change":1,"fields":{"labels":["b","a"]},"key":"OPS-1"}
3 1 {"at":0,"author":"anna","change":1,"fields":{"labels":[]},"key":"OPS-1"}
3 1 {"at":0,"author":"anna","change":1,"fields":{"labels":["a b"]},"key":"OPS-1"}
3 1 {"at":0,"author":"anna","change":1,"fields":{"due":"2024-3-31"},"key":"OPS-1"}
3 1 {"at":0,"author":"anna","change":1,"fields":{"due":"2024-02-30"},"key":"OPS-1"}
3 1 {"at":0,"author":"anna","change":1,"fields":{"due":"2100-01-01"},"key":"OPS-1"}
3 1 {"at":0,"author":"anna","change":1,"fields":{"sprint":"1"},"key":"OPS-1"}
3 1 {"at":0,"author":"anna","change":1,"fields":{"sprint":01},"key":"OPS-1"}
3 1 {"at":0,"author":"anna","change":1,"fields":{"sprint":-1},"key":"OPS-1"}
3 1 {"at":0,"author":"anna","change":1,"fields":{"sprint":4294967296},"key":"OPS-1"}
3 1 {"at":0,"author":"anna","change":1,"fields":{"Points":"3"},"key":"OPS-1"}
3 1 {"at":0,"author":"anna","change":1,"fields":{"colour":"red"},"key":"OPS-1"}
3 1 {"at":0,"author":"anna","change":1,"fields":{"key":"OPS-1"},"key":"OPS-1"}
3 1 {"at":0,"author":"anna","change":1,"fields":{"duedate":"2024-03-31"},"key":"OPS-1"}
3 1 {"at":0,"author":"anna","change":1,"fields":{"type":"Task","summary":"s"},"key":"OPS-1"}
3 1 {"at":0,"author":"anna","change":1,"fields":{"summary":"a\nb"},"key":"OPS-1"}
3 1 {"at":0,"author":"anna","change":1,"fields":{"summary":"\u0061"},"key":"OPS-1"}
3 1 {"at":0,"author":"anna","change":1,"fields":[],"key":"OPS-1"}
3 1 {"at":0,"author":"anna","change":1,"key":"OPS-1"}
3 1 {"author":"anna","at":0,"change":1,"fields":{},"key":"OPS-1"}
3 1 {"at":0,"author":"anna","change":1,"fields":{ },"key":"OPS-1"}
3 1 {"at":0,"author":"anna","change":1,"fields":{},"key":"OPS-1","no":1}
4 0 {"at":60,"author":"anna","entries":[["status","Open","Done"]],"issue":1}
4 7 {"at":60,"author":"anna","entries":[["status","Open"]],"issue":1}
4 7 {"at":60,"author":"anna","entries":[["status","Open","Done",null]],"issue":1}
4 7 {"at":60,"author":"anna","entries":[[4,"Open","Done"]],"issue":1}
4 7 {"at":60,"author":"anna","entries":[["assignee","","anna"]],"issue":1}
4 7 {"at":60,"author":"anna","entries":[["assignee","null","anna"]],"issue":1}
4 7 {"at":60,"author":"anna","entries":[["labels",[],["a"]]],"issue":1}
4 7 {"at":60,"author":"anna","entries":[["status","open","Done"]],"issue":1}
4 7 {"at":60,"author":"anna","entries":[["Status","Open","Done"]],"issue":1}
4 7 {"at":60,"author":"anna","entries":[["colour","Open","Done"]],"issue":1}
4 7 {"at":60,"author":"anna","entries":[["points","3","2.50"]],"issue":1}
4 7 {"at":60,"author":"anna","entries":[["sprint","1",2]],"issue":1}
4 7 {"at":60,"author":"anna","entries":[["assignee",null,"Bo"]],"issue":1}
4 7 {"at":60,"author":"anna","entries":[["status","Open","Done"], ["assignee",null,"bo"]],"issue":1}
4 7 {"at":60,"author":"anna","entries":{},"issue":1}
4 7 {"at":60,"author":"anna","entries":null,"issue":1}
4 7 {"at":60,"author":"ANNA","entries":[],"issue":1}
4 7 {"at":60,"author":"anna","entries":[],"issue":0}
4 7 {"at":60,"author":"anna","entries":[],"issue":01}
4 7 {"at":60,"author":"anna","entries":[],"issue":4294967296}
4 7 {"at":60,"author":"anna","entries":[],"issue":"1"}
4 7 {"at":60,"author":"anna","issue":1,"entries":[]}
4 7 {"at":60,"author":"anna","entries":[],"issue":1,"no":7}
4 7 {"at":60,"author":"anna","entries":[],"issue":1}}"#;

/// Nearly ranks, external ids, sprints, filters, boards and members; and rows of no kind.
const OTHERS: &str = r#"5 0 0|i00000:
5 4294967296 0|i00000:
5 1 3|i00000:
5 1 0|I00000:
5 1 0|000000:
5 1 0|i00000
5 1 0|i00000:0
5 1 0|i0000:
5 1 |i00000:
5 1  0|i00000:
5 1 0|i00000: 
5 1 00|i00000:
5 1 null
5 1 
6 0 X-1
6 4294967296 X-1
6 1 01234567890123456789012345678901234567890123456789012345678901234
6 1 
6 1 é
7 0 {"close":null,"name":"S","start":null}
7 4294967296 {"close":null,"name":"S","start":null}
7 1 {"close":[120,8],"name":"S","start":null}
7 1 {"close":null,"name":"S","start":[60]}
7 1 {"close":null,"name":"S","start":[60,6,1]}
7 1 {"close":null,"name":"S","start":["60",6]}
7 1 {"close":null,"name":"S","start":[060,6]}
7 1 {"close":null,"name":"S","start":[60, 6]}
7 1 {"close":null,"name":"S","start":[4102444800,6]}
7 1 {"close":null,"name":"S","start":""}
7 1 {"close":"null","name":"S","start":null}
7 1 {"close":null,"name":"","start":null}
7 1 {"close":null,"name":null,"start":null}
7 1 {"close":null,"name":"a\u0007b","start":null}
7 1 {"close":null,"name":"01234567890123456789012345678901234567890123456789012345678901234567890123456789012345678901234567890","start":null}
7 1 {"close":null,"name":"S"}
7 1 {"name":"S","close":null,"start":null}
7 1 {"close":null,"Name":"S","start":null}
7 1 {"close":null,"name":"S","start":null,"state":"future"}
8 0 {"jql":"","name":"all","owner":"anna"}
8 4294967296 {"jql":"","name":"all","owner":"anna"}
8 1 {"jql":"","name":"all","owner":"ANNA"}
8 1 {"jql":"","name":"all","owner":"zed"}
8 1 {"jql":"","name":"all","owner":0}
8 1 {"jql":"","name":"","owner":"anna"}
8 1 {"jql":null,"name":"all","owner":"anna"}
8 1 {"jql":"","name":"\u00e9","owner":"anna"}
8 1 {"jql":"a \/ b","name":"all","owner":"anna"}
8 1 {"jql": "","name":"all","owner":"anna"}
8 1 {"name":"all","jql":"","owner":"anna"}
8 1 {"jql":"","name":"all"}
8 1 {"jql":"","name":"all","owner":"anna","board":1}
9 0 {"filter":1,"name":"team"}
9 4294967296 {"filter":1,"name":"team"}
9 1 {"filter":4294967296,"name":"team"}
9 1 {"filter":"1","name":"team"}
9 1 {"filter":01,"name":"team"}
9 1 {"filter":-1,"name":"team"}
9 1 {"filter":1.0,"name":"team"}
9 1 {"filter":null,"name":"team"}
9 1 {"filter":1,"name":""}
9 1 {"filter":1, "name":"team"}
9 1 {"name":"team","filter":1}
9 1 {"filter":1,"NAME":"team"}
9 1 {"filter":1,"name":"team","x":null}
10 0 {"members":["anna"]}
10 4 {"members":["anna"]}
10 65537 {"members":["anna"]}
10 1 {"members":["bo","anna"]}
10 1 {"members":["anna","anna"]}
10 1 {"members":["Anna"]}
10 1 {"members":["zed"]}
10 1 {"members":[0]}
10 1 {"members":[null]}
10 1 {"members":""}
10 1 {"members":null}
10 1 {"members":["anna", "bo"]}
10 1 {"members":["anna"],"group":1}
10 1 {"Members":["anna"]}
1 0 
1 1 utc_offset_minutes = 0
1 0 utc_offset_minutes = 0
0 0 {}
0 1 a
11 1 {"members":["anna"]}
255 1 a"#;

/// External ids with a tab and with a delete character.
const CONTROLS: &str = "6 1 a\tb\n6 1 a\u{7f}b";

fn are_refused(alloc: Global) -> bool {
    all_answer(alloc, TRACKED, Answer::Refused)
        && all_answer(alloc, OTHERS, Answer::Refused)
        && all_answer(alloc, CONTROLS, Answer::Refused)
}

#[test]
fn what_is_nearly_a_body_is_refused(rt: HostRuntime) {
    let passes = are_refused(rt.alloc());
    assert!(rt; passes);
}
