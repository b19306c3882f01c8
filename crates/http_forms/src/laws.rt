ghost use Rattle.http_forms.specs.Laws.{OutcomesAreOne, RequestsStandAlone, RequestsAreFronts, EndedLinksAreDecided, StreamsAreOne, CutStreamsAreFronts, StreamsStandAlone};

/// Whatever bytes a link gives, they come to one thing.
pub fn outcomes_are_one()
    ensures { OutcomesAreOne }
{}

/// What bytes come to that are not unfinished, they come to whatever follows them and wherever the link ends. So no
/// request is the front of another one, and no byte after a request changes it.
pub fn requests_stand_alone()
    ensures { RequestsStandAlone }
{}

/// A request has no more bytes than were read, and is just the first of them, so the next one of the link may begin after it.
pub fn requests_are_fronts()
    ensures { RequestsAreFronts }
{}

/// Bytes after which a link ended are a request or refused.
pub fn ended_links_are_decided()
    ensures { EndedLinksAreDecided }
{}

/// The requests of a link's bytes are one list, and stop in one way.
pub fn streams_are_one()
    ensures one { StreamsAreOne }
    ensures front { CutStreamsAreFronts }
{}

/// The requests of the first bytes of a link stay the same, whatever follows and wherever the link ends.
pub fn streams_stand_alone()
    ensures { StreamsStandAlone }
{}
