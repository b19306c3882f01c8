ghost use Rattle.std.specs.Prelude.{◌≡◌, refl};
ghost use Rattle.std.specs.Borrow.{sem, Lends};
ghost use Rattle.web_outside.specs.View.{LinkView};

use crate::{Sink, Source, TextSink, TextSource};

/// A connection: a source of what the other side sends, and a sink for what it is sent.
pub trait Link {
    /// Where the bytes come from.
    type Input: Source;

    /// Where the bytes go.
    type Output: Sink;

    /// What contracts see of it.
    ghost view: { Self → LinkView };

    /// The link with another source.
    ghost with_input: { Self → Self.Input → Self };

    /// The link with another sink.
    ghost with_output: { Self → Self.Output → Self };

    /// The source.
    fn input(&mut self) -> &mut Self::Input
        ensures* writes_back { sem 𝓛
            (Lends Self.row Self.Input.row self.entry result (with_input self.old)) }
        ensures value { Self.Input.view result.now ≡ (view self.old).input };

    /// The sink.
    fn output(&mut self) -> &mut Self::Output
        ensures* writes_back { sem 𝓛
            (Lends Self.row Self.Output.row self.entry result (with_output self.old)) }
        ensures value { Self.Output.view result.now ≡ (view self.old).output };

    /// The source that was put in is the link's, and the sink stays.
    ghost input_set: { (link : Self) (half : Self.Input)
        → view (with_input link half) ≡ record (view link) { input = Self.Input.view half } };

    /// The sink that was put in is the link's, and the source stays.
    ghost output_set: { (link : Self) (half : Self.Output)
        → view (with_output link half) ≡ record (view link) { output = Self.Output.view half } };
}

/// A link in memory.
#[derive(Drop)]
pub struct TextLink {
    /// What the other side sends.
    pub input: TextSource,
    /// What it is sent.
    pub output: TextSink,
}

impl Link for TextLink {
    ghost use Rattle.web_outside.specs.Lists.{link_view};

    type Input = TextSource;

    type Output = TextSink;

    ghost view = { λ link. link_view link };

    ghost with_input = { λ link half. record link { input = half } };

    ghost with_output = { λ link half. record link { output = half } };

    fn input(&mut self) -> &mut TextSource {
        &mut self.input
    }

    fn output(&mut self) -> &mut TextSink {
        &mut self.output
    }

    ghost input_set = { λ _ _. refl };

    ghost output_set = { λ _ _. refl };
}
