ghost use Rattle.console.specs.Transcripts.{OneTranscript};

// A text has one transcript: its relation leaves no byte open.
pub fn one_transcript()
    ensures { OneTranscript }
{}
