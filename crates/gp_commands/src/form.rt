//! The table from a command's identifier to the form of its payload.

ghost use Rattle.std.specs.Prelude.{◌≡◌};
ghost use Rattle.gp_commands.specs.Forms.{form_in, is_in};

/// How a command's payload is laid out.
#[derive(Clone, Copy, Debug, PartialEq, Eq)]
pub(crate) enum Form {
    Plain,
    Move,
    Step,
    Vector,
    Report,
    Commissioning,
    Reply,
    ChannelRequest,
    ChannelConfig,
    Other,
}

/// Identifiers from the first to the last, whose payloads have one form.
#[derive(Clone, Copy, Debug)]
pub(crate) struct Line {
    pub first: u8,
    pub last: u8,
    pub form: Form,
}

impl Line {
    /// Whether an identifier stands in the line.
    fn has(&self, id: u8) -> bool
        ensures { result ≡ is_in self.now id }
    {
        self.first <= id && id <= self.last
    }
}

/// The identifier of an attribute report.
pub(crate) const REPORT: u8 = 0xA0;
/// The identifier of a Commissioning.
pub(crate) const COMMISSIONING: u8 = 0xE0;
/// The identifier of a Channel Request.
pub(crate) const CHANNEL_REQUEST: u8 = 0xE3;
/// The identifier of a Commissioning Reply.
pub(crate) const REPLY: u8 = 0xF0;
/// The identifier of a Channel Configuration.
pub(crate) const CHANNEL_CONFIG: u8 = 0xF3;

/// The table of identifiers. The payload of those that have no line is of the form `Other`.
pub(crate) const FORMS: [Line; 17] = [
    // Identify
    Line {
        first: 0x00,
        last: 0x00,
        form: Form::Plain,
    },
    // Recall Scene 0 to 7, Store Scene 0 to 7
    Line {
        first: 0x10,
        last: 0x1F,
        form: Form::Plain,
    },
    // Off, On, Toggle, Release
    Line {
        first: 0x20,
        last: 0x23,
        form: Form::Plain,
    },
    // Move Up, Move Down
    Line {
        first: 0x30,
        last: 0x31,
        form: Form::Move,
    },
    // Step Up, Step Down
    Line {
        first: 0x32,
        last: 0x33,
        form: Form::Step,
    },
    // Level Stop
    Line {
        first: 0x34,
        last: 0x34,
        form: Form::Plain,
    },
    // Move Up and Move Down with On/Off
    Line {
        first: 0x35,
        last: 0x36,
        form: Form::Move,
    },
    // Step Up and Step Down with On/Off
    Line {
        first: 0x37,
        last: 0x38,
        form: Form::Step,
    },
    // Lock Door, Unlock Door
    Line {
        first: 0x50,
        last: 0x51,
        form: Form::Plain,
    },
    // press, release and short press of one or two keys
    Line {
        first: 0x60,
        last: 0x68,
        form: Form::Plain,
    },
    // 8-bit vector press, 8-bit vector release
    Line {
        first: 0x69,
        last: 0x6A,
        form: Form::Vector,
    },
    // attribute report
    Line {
        first: REPORT,
        last: REPORT,
        form: Form::Report,
    },
    Line {
        first: COMMISSIONING,
        last: COMMISSIONING,
        form: Form::Commissioning,
    },
    // Decommissioning, Success
    Line {
        first: 0xE1,
        last: 0xE2,
        form: Form::Plain,
    },
    Line {
        first: CHANNEL_REQUEST,
        last: CHANNEL_REQUEST,
        form: Form::ChannelRequest,
    },
    Line {
        first: REPLY,
        last: REPLY,
        form: Form::Reply,
    },
    Line {
        first: CHANNEL_CONFIG,
        last: CHANNEL_CONFIG,
        form: Form::ChannelConfig,
    },
];

/// The form of an identifier's payload.
#[tactic(auto, unfolding(crate::specs::Forms::form_of, crate::specs::Forms::identifiers))]
pub(crate) fn form_of(id: u8) -> Form
    ensures { result ≡ Rattle.gp_commands.specs.Forms.form_of id }
{
    form_among(&FORMS, id)
}

/// The form that the first line which has the identifier gives.
fn form_among(lines: &[Line], id: u8) -> Form
    ensures { result ≡ form_in lines.now id }
{
    for line in lines {
        if line.has(id) {
            return line.form;
        }
    }
    Form::Other
}
