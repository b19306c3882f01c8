//! Requests as a browser sends them and replies as it gets them, byte for byte: for workers, and for the targets of `play`.
#![tactic(auto)]

mod answer;
mod answering;
mod fields;
mod head;
mod laws;
mod progress;
mod reader;
mod refused;
mod reply;
mod request;
mod rows;
mod status;

pub use answer::{answer_of, path_and_query};
pub use answering::Answering;
pub use head::{HeadScanner, head_end};
pub use laws::{
    ended_links_are_decided, outcomes_are_one, requests_are_fronts, requests_stand_alone,
    streams_are_one, streams_stand_alone,
};
pub use progress::RequestScanner;
pub use reader::{Incoming, ReadStop, RequestReader, incoming_of};
pub use refused::{Refused, RequestFault};
pub use reply::{Answer, write_reply};
pub use request::{Request, request_of};
pub use rows::body_length;
pub use status::Status;
