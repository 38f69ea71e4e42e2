//! What messages say.

/// Of two members of one name the last counts; what the operation doesn't know plays no part.
pub const MESSAGES: &str =
    r#"{"id":7,"op":"open","url":"https://a.test/"} -> 7 open https://a.test/ default Window
{"id":7,"op":"open","url":"","kind":"window"} -> 7 open  default Window
{"id":7,"op":"open","url":"no","kind":"worker"} -> 7 open no default Worker
{"id":7,"op":"open","url":"u","bucket":"default"} -> 7 open u default Window
{"id":7,"op":"open","url":"u","kind":"worker","bucket":"inbox"} -> 7 open u inbox Worker
{"id":7,"op":"open","url":"u","bucket":"-In box"} -> 7 open u -In box Window
{"id":7,"op":"open","url":"u","bucket":"x","bucket":""} -> 7 open u  Window
{"id":7,"op":"request","name":""} -> 7 request  exclusive
{"id":7,"op":"request","name":"-n","options":{"mode":"exclusive","ifAvailable":false,"steal":false}} -> 7 request -n exclusive
{"id":7,"op":"request","name":"n","options":{"mode":"shared","ifAvailable":true,"steal":true,"signal":3}} -> 7 request n shared available steal signal 3
{"id":7,"name":"n","op":"request","options":null} -> 7 request n exclusive
{"id":7,"name":"n","op":"request","options":{}} -> 7 request n exclusive
{"id":7,"op":"signal"} -> 7 Signal
{"id":7,"op":"release","request":12} -> 7 Release(12)
{"id":7,"op":"abort","signal":1} -> 7 Abort(1, AbortError)
{"id":7,"op":"abort","signal":1,"reason":"AbortError"} -> 7 Abort(1, AbortError)
{"id":7,"op":"abort","signal":1,"reason":"TimeoutError"} -> 7 Abort(1, TimeoutError)
{"id":7,"op":"abort","signal":1,"reason":0} -> 7 Abort(1, Code(0))
{"id":7,"op":"abort","signal":1,"reason":7} -> 7 Abort(1, Code(7))
{"id":7,"op":"abort","signal":1,"reason":256} -> 7 Abort(1, Code(256))
{"id":1,"op":"abort","reason":65535,"signal":1} -> 1 Abort(1, Code(65535))
{"id":7,"op":"abort","signal":1,"reason":65536,"reason":7} -> 7 Abort(1, Code(7))
{"id":7,"op":"poll","reason":65536} -> 7 Poll
{"id":7,"op":"active","active":false} -> 7 Active(false)
{"id":7,"op":"query","x":[1]} -> 7 Query
{"id":7,"op":"poll"} -> 7 Poll
{"id":7,"op":"close"} -> 7 Close
{"id":1,"id":7,"\u006fp":"p\u006fll"} -> 7 Poll
{"id":7,"op":"close","signal":null,"options":7,"x":[1]} -> 7 Close
"#;
