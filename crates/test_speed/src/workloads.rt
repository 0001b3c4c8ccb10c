//! What is timed.

/// The requests: a title, one that is timed, and one that undoes it.
pub fn requests() -> &'static [(&'static str, &'static str, &'static str)] {
    &REQUESTS
}

// (A constant of many parts would stand whole in the proof of each function that names it.)
static REQUESTS: [(&str, &str, &str); 8] = [
    ("read 1", "user7 Read /g", "user7 Read /g"),
    ("read 6", "user7 Read /f/f/f/f/f/g", "user7 Read /g"),
    ("list", "user7 List /o/f1", "user7 Read /g"),
    ("put over", "user7 PutMany /g 1024", "user7 Read /g"),
    ("put new", "user7 PutMany /n 1024", "user7 Remove /n"),
    ("denied", "user7 Read /s", "user7 Read /g"),
    (
        "set_list",
        "user7 SetList /x dacl list:a / A:fd:alice:r",
        "user7 SetList /x dacl list:a / A:fd:bob:r",
    ),
    ("move", "user7 Move /x /b/x", "user7 Move /b/x /x"),
];

/// Messages of one kind over a connection.
pub struct Message {
    pub title: &'static str,
    /// What the first line says of the resource.
    pub target: &'static str,
    /// The request that it is read as.
    pub asked: &'static str,
    /// How many bytes are sent along.
    pub body: usize,
    /// How many documents the room has beside `/f`.
    pub documents: usize,
    /// How many bytes are read at a time, if not a whole message.
    pub step: Option<usize>,
    /// How many messages come over a connection at most.
    pub most: u32,
}

/// The messages.
pub fn messages() -> &'static [Message] {
    &MESSAGES
}

static MESSAGES: [Message; 8] = [
    Message {
        title: "get",
        target: "GET /doc/f",
        asked: "root Read /f",
        body: 0,
        documents: 0,
        step: None,
        most: 1000,
    },
    Message {
        title: "can",
        target: "GET /can/f?rwa",
        asked: "root Can /f rwa",
        body: 0,
        documents: 0,
        step: None,
        most: 1000,
    },
    Message {
        title: "list",
        target: "GET /folder/",
        asked: "root List /",
        body: 0,
        documents: 99,
        step: None,
        most: 1000,
    },
    Message {
        title: "put 1024",
        target: "PUT /doc/f",
        asked: "root PutMany /f 1024",
        body: 1024,
        documents: 0,
        step: None,
        most: 50,
    },
    Message {
        title: "put 1048576",
        target: "PUT /doc/f",
        asked: "root PutMany /f 1048576",
        body: 1048576,
        documents: 0,
        step: None,
        most: 50,
    },
    Message {
        title: "pieces of 4096",
        target: "GET /doc/f",
        asked: "root Read /f",
        body: 0,
        documents: 0,
        step: Some(4096),
        most: 1000,
    },
    Message {
        title: "pieces of 7",
        target: "GET /doc/f",
        asked: "root Read /f",
        body: 0,
        documents: 0,
        step: Some(7),
        most: 1000,
    },
    Message {
        title: "pieces of 1",
        target: "GET /doc/f",
        asked: "root Read /f",
        body: 0,
        documents: 0,
        step: Some(1),
        most: 1000,
    },
];
