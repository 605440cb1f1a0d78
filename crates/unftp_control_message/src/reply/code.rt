//! The codes of replies.
ghost use Rattle.std.specs.Prelude.{◌≡◌, ◌↔◌, IsTrue};
ghost use Rattle.unftp_control_message.specs.declared.reply.code.ReplyCode.{ReplyCode as RustCode};
ghost use Rattle.unftp_control_message.specs.ReplyMeaning.{number_of};

/// The code of a reply, by its meaning (RFC 959, section 4.2.2, where no other is named).
#[derive(Debug, PartialEq, Eq, Clone, Copy)]
pub enum ReplyCode {
    /// 0: no reply of RFC 959.
    NoReply = 0,
    /// 1: no reply of RFC 959: the group of preliminary replies.
    GroupPreliminaryReply = 1,
    /// 2: no reply of RFC 959: the group of positive completion.
    GroupPositiveCompletion = 2,
    /// 110: a restart marker.
    RestartMarker = 110,
    /// 120: the service is ready in some minutes.
    InNMinutes = 120,
    /// 125: the data connection is open already, and the transfer begins.
    ConnectionAlreadyOpen = 125,
    /// 150: the file is there, and the data connection is about to be opened.
    FileStatusOkay = 150,
    /// 200: the command is done.
    CommandOkay = 200,
    /// 202: the command is not implemented, and not needed here.
    CommandOkayNotImplemented = 202,
    /// 211: the system's status, or help on it.
    SystemStatus = 211,
    /// 212: a directory's status.
    DirectoryStatus = 212,
    /// 213: a file's status.
    FileStatus = 213,
    /// 214: help for people.
    HelpMessage = 214,
    /// 215: the name of the system.
    SystemType = 215,
    /// 220: the service is ready for a new user.
    ServiceReady = 220,
    /// 221: the control connection is being closed.
    ClosingControlConnection = 221,
    /// 225: the data connection is open, and no transfer is under way.
    DataConnectionOpen = 225,
    /// 226: the data connection is being closed, and the file action is done.
    ClosingDataConnection = 226,
    /// 227: the server listens for the data connection.
    EnteringPassiveMode = 227,
    /// 229: the server listens for the data connection, in extended passive mode (RFC 2428).
    EnteringExtendedPassiveMode = 229,
    /// 230: the user is logged in.
    UserLoggedIn = 230,
    /// 232: the user is logged in by the security data exchanged (RFC 2228).
    UserLoggedInViaCert = 232,
    /// 234: the security exchange is done (RFC 2228).
    AuthOkayNoDataNeeded = 234,
    /// 250: the file action is done.
    FileActionOkay = 250,
    /// 257: the path that was made, or that is the working directory.
    DirCreated = 257,
    /// 331: the user name is taken, and a password is needed.
    NeedPassword = 331,
    /// 332: an account is needed to log in.
    NeedAccount = 332,
    /// 350: the file action needs more.
    FileActionPending = 350,
    /// 421: the service is not available, and the control connection is being closed.
    ServiceNotAvailable = 421,
    /// 425: the data connection can't be opened.
    CantOpenDataConnection = 425,
    /// 426: the connection was closed, and the transfer ended early.
    ConnectionClosed = 426,
    /// 450: the file is not available for now.
    TransientFileError = 450,
    /// 451: the action ended early by a fault of the server.
    LocalError = 451,
    /// 452: there is no room for the file.
    OutOfSpace = 452,
    /// 500: the command is ill formed or not known.
    CommandSyntaxError = 500,
    /// 501: a parameter is ill formed.
    ParameterSyntaxError = 501,
    /// 502: the command is not implemented.
    CommandNotImplemented = 502,
    /// 503: the command doesn't follow on the one before.
    BadCommandSequence = 503,
    /// 504: the command is not implemented for that parameter.
    CommandNotImplementedForParameter = 504,
    /// 530: the user is not logged in.
    NotLoggedIn = 530,
    /// 532: an account is needed to store files.
    NeedAccountToStore = 532,
    /// 533: the command's protection level is denied by policy (RFC 2228).
    Resp533 = 533,
    /// 534: the request is denied by policy (RFC 2228).
    FtpsRequired = 534,
    /// 550: the file is not available.
    FileError = 550,
    /// 551: the page type is not known.
    PageTypeUnknown = 551,
    /// 552: the file is larger than what is allotted.
    ExceededStorageAllocation = 552,
    /// 553: the file name is not allowed.
    BadFileName = 553,
}

impl ReplyCode {
    ghost use Rattle.unftp_control_message.specs.declared.reply.code.ReplyCode.{ReplyCode};

    /// Its number.
    pub fn number(&self) -> u32
        // The number of the code in the definition's table.
        ensures { result ≡ number_of self.now }
    {
        *self as u32
    }

    /// The code with this number, if there is one.
    pub fn from_number(number: u32) -> Option<ReplyCode>
        // It is a code exactly where that code has this number, and so `None` where no code has it.
        ensures { (code : ReplyCode) → (result ≡ Some code) ↔ (number_of code ≡ number) }
    {
        Some(match number {
            0 => ReplyCode::NoReply,
            1 => ReplyCode::GroupPreliminaryReply,
            2 => ReplyCode::GroupPositiveCompletion,
            110 => ReplyCode::RestartMarker,
            120 => ReplyCode::InNMinutes,
            125 => ReplyCode::ConnectionAlreadyOpen,
            150 => ReplyCode::FileStatusOkay,
            200 => ReplyCode::CommandOkay,
            202 => ReplyCode::CommandOkayNotImplemented,
            211 => ReplyCode::SystemStatus,
            212 => ReplyCode::DirectoryStatus,
            213 => ReplyCode::FileStatus,
            214 => ReplyCode::HelpMessage,
            215 => ReplyCode::SystemType,
            220 => ReplyCode::ServiceReady,
            221 => ReplyCode::ClosingControlConnection,
            225 => ReplyCode::DataConnectionOpen,
            226 => ReplyCode::ClosingDataConnection,
            227 => ReplyCode::EnteringPassiveMode,
            229 => ReplyCode::EnteringExtendedPassiveMode,
            230 => ReplyCode::UserLoggedIn,
            232 => ReplyCode::UserLoggedInViaCert,
            234 => ReplyCode::AuthOkayNoDataNeeded,
            250 => ReplyCode::FileActionOkay,
            257 => ReplyCode::DirCreated,
            331 => ReplyCode::NeedPassword,
            332 => ReplyCode::NeedAccount,
            350 => ReplyCode::FileActionPending,
            421 => ReplyCode::ServiceNotAvailable,
            425 => ReplyCode::CantOpenDataConnection,
            426 => ReplyCode::ConnectionClosed,
            450 => ReplyCode::TransientFileError,
            451 => ReplyCode::LocalError,
            452 => ReplyCode::OutOfSpace,
            500 => ReplyCode::CommandSyntaxError,
            501 => ReplyCode::ParameterSyntaxError,
            502 => ReplyCode::CommandNotImplemented,
            503 => ReplyCode::BadCommandSequence,
            504 => ReplyCode::CommandNotImplementedForParameter,
            530 => ReplyCode::NotLoggedIn,
            532 => ReplyCode::NeedAccountToStore,
            533 => ReplyCode::Resp533,
            534 => ReplyCode::FtpsRequired,
            550 => ReplyCode::FileError,
            551 => ReplyCode::PageTypeUnknown,
            552 => ReplyCode::ExceededStorageAllocation,
            553 => ReplyCode::BadFileName,
            _ => return None,
        })
    }
}

/// `==` of codes is equality, and a clone is equal.
pub fn same_codes()
    // `==` of two codes is true exactly where they are equal.
    ensures equal { (a b : RustCode) → IsTrue (⟦<ReplyCode as PartialEq>⟧.eq a b) ↔ (a ≡ b) }
    // A clone of a code is equal to it.
    ensures clone { (a b : RustCode) → ⟦<ReplyCode as Clone>⟧.is_clone a b → b ≡ a }
{}
