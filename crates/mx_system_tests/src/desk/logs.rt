//! The log of p1, which lost a payment to q1: read, archived and cleared.
use super::{FUNDED, STANDING, played};
use std::test::Fail;

/// The request is aborted before it is handled, so the value that it brings is ignored; p1 reads its log.
const LOST: &str = r#"
bob POST /purses/q1/start-to {"peer":"p1","value":60,"seq":0} -> 200 {"details":"p1,q1,60,0,0","done":"started"}
bob POST /purses/q1/abort -> 200 {"done":"aborted","logged":true}
ann POST /purses/p1/start-from {"peer":"q1","value":60,"seq":0} -> 200 {"details":"p1,q1,60,0,0","done":"started"}
ann POST /purses/p1/handle {"number":0} -> 200 {"done":"value-sent"}
bob POST /purses/q1/handle {"number":0} -> 200 {"done":"ignored"}
ann POST /purses/p1/read-log {"place":0} -> 200 {"done":"read","entry":"p1,q1,60,0,0"}
"#;

const LOGS: &str = r#"@ The entry is read, archived and cleared: then the log is empty.
ann GET /purses/p1 -> 200 {"balance":40,"next":1,"purse":"p1","status":"eaFrom"}
operator POST /archive/p1 -> 200 {"archived":1}
operator POST /clear/p1 {"details":"p1,q1,60,0,0"} -> 200 {"done":"sent"}
ann GET /purses/p1/inbox -> 200 {"messages":[{"details":"p1,q1,60,0,0","kind":"req","number":0},{"details":"p1,q1,60,0,0","kind":"clear","number":1}]}
ann POST /purses/p1/handle {"number":1} -> 200 {"done":"cleared"}
ann POST /purses/p1/read-log {"place":0} -> 200 {"done":"read","entry":null}
ann POST /purses/p1/read-log {"place":16} -> 200 {"done":"read","entry":null}
ann GET /purses/p1 -> 200 {"balance":40,"next":1,"purse":"p1","status":"eaFrom"}
@ A clear is ignored where the log has grown since.
operator POST /archive/p1 -> 200 {"archived":1}
operator POST /clear/p1 {"details":"p1,q1,60,0,0"} -> 200 {"done":"sent"}
ann POST /purses/p1/start-to {"peer":"q1","value":5,"seq":1} -> 200 {"details":"q1,p1,5,1,1","done":"started"}
ann POST /purses/p1/abort -> 200 {"done":"aborted","logged":true}
ann POST /purses/p1/handle {"number":1} -> 200 {"done":"ignored"}
ann POST /purses/p1/read-log {"place":0} -> 200 {"done":"read","entry":"p1,q1,60,0,0"}
ann POST /purses/p1/read-log {"place":1} -> 200 {"done":"read","entry":"q1,p1,5,1,1"}
@ What is archived isn't archived again, nor when it is read again.
operator POST /archive/p1 -> 200 {"archived":1}
operator POST /archive/p1 -> 200 {"archived":0}
ann POST /purses/p1/read-log {"place":0} -> 200 {"done":"read","entry":"p1,q1,60,0,0"}
operator POST /archive/p1 -> 200 {"archived":0}
operator POST /archive/zz -> 404 {"error":"no such purse"}
ann POST /archive/p1 -> 403 {"error":"not for this caller"}
@ A clear of nothing, and one of details that aren't archived, or not for that purse.
operator POST /clear/p1 {"details":"p1,q1,60,0,0"} -> 409 {"error":"not archived"}
operator POST /archive/p1 -> 200 {"archived":1}
operator POST /clear/p1 {"details":""} -> 409 {"error":"not archived"}
operator POST /clear/p1 {"details":"p1,q1,60,0,0;p1,q1,60,1,1"} -> 409 {"error":"not archived"}
operator POST /clear/q1 {"details":"p1,q1,60,0,0"} -> 409 {"error":"not archived"}
operator POST /clear/zz {"details":"p1,q1,60,0,0"} -> 404 {"error":"no such purse"}
operator POST /clear/p1 {"details":"p1,q1,60,0"} -> 400 {"error":"bad body"}
ann GET /purses/p1/inbox -> 200 {"messages":[{"details":"p1,q1,60,0,0","kind":"req","number":0}]}
@ A second clear of the same details is sent as the first, and ignored, since the log is empty then.
operator POST /archive/p1 -> 200 {"archived":1}
operator POST /clear/p1 {"details":"p1,q1,60,0,0"} -> 200 {"done":"sent"}
operator POST /clear/p1 {"details":"p1,q1,60,0,0"} -> 200 {"done":"sent"}
ann POST /purses/p1/handle {"number":1} -> 200 {"done":"cleared"}
ann POST /purses/p1/handle {"number":2} -> 200 {"done":"ignored"}
"#;

#[test]
fn logs(rt: HostRuntime) -> Result<(), Fail> {
    played(&rt, &[STANDING, FUNDED, LOST], LOGS)
}
