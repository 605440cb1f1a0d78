//! What both ends of a control connection say: the commands of a client, the replies of a server,
//! and the errors that a caller gets.
#![tactic(auto)]

ghost use Rattle.std.specs.Prelude.{◌≡◌, ◌+◌, ◌<◌, IfOk, OnErr, length, option_map, string_bytes};
ghost use Rattle.unftp_control_defs.specs.FtpCommand.{List, Other, Site};
ghost use Rattle.unftp_control_message.specs.CommandMeaning.{command_of};
ghost use Rattle.unftp_control_message.specs.PartsMeaning.{IsItsParts, held_len, maybe_len};

/// Gives a macro each command, after its other arguments: its variant, what its verb takes, and its
/// fields. `chosen` names the variant of `Choice`.
macro_rules! for_each_command {
    ($call:ident!($($argument:expr),*)) => {
        $call! {
            $($argument,)*
            User bytes { username }
            Pass password { password }
            Acct bytes { account }
            Syst nothing {}
            Stat optional_bytes { path }
            TypeCode nothing {}
            Stru chosen Structure { structure }
            Mode chosen Mode { mode }
            Help nothing {}
            Noop nothing {}
            Pasv nothing {}
            Epsv nothing {}
            Port text { addr }
            Retr text { path }
            Stor text { path }
            Appe text { path }
            List listing { options, path }
            Nlst optional_text { path }
            Mlst optional_text { path }
            Mlsd optional_text { path }
            Feat nothing {}
            Pwd nothing {}
            Cwd text { path }
            Cdup nothing {}
            Opts chosen Setting { option }
            Dele text { path }
            Rmd text { path }
            Quit nothing {}
            Mkd text { path }
            Allo nothing {}
            Abor nothing {}
            Stou nothing {}
            Rnfr text { file }
            Rnto text { file }
            Auth chosen Mechanism { protocol }
            Ccc nothing {}
            Pbsz no_buffer {}
            Prot chosen Protection { param }
            Size text { file }
            Rest number { offset }
            Mdtm text { file }
            Md5 text { file }
            Site site { command, arguments }
            Other other { command_name, arguments }
        }
    };
}

mod fields;
pub mod parts;
pub mod password;
pub mod reply;
pub mod sent;
pub mod utf8;

use crate::fields::owned;
use bytes::Bytes;
use password::Password;
use std::alloc::{AllocError, Global};
use std::fmt;
pub use unftp_control_defs::parameters::{AuthParam, ModeParam, Opt, ProtParam, StruParam};

/// A command that a client sends on the control connection. `parse` fills a `String` with the bytes
/// of the value, each ill-formed part of UTF-8 replaced by U+FFFD, and `Bytes` with the bytes as
/// they are; CR NUL is one CR in both (RFC 854).
#[derive(Debug, Drop, PartialEq, Eq)]
pub enum Command {
    /// USER: who logs in (RFC 959, section 4.1.1).
    User {
        /// The name as the client sent it, in no particular encoding; it may be empty.
        username: Bytes,
    },
    /// PASS: the password (RFC 959, section 4.1.1).
    Pass {
        /// The password as the client sent it; it may be empty.
        password: Password,
    },
    /// ACCT: the account (RFC 959, section 4.1.1).
    Acct {
        /// The account as the client sent it; it may be empty.
        account: Bytes,
    },
    /// SYST: asks for the operating system (RFC 959, section 4.1.3). Its parameter is ignored.
    Syst,
    /// STAT: asks for the status of the server, or of a path (RFC 959, section 4.1.3).
    Stat {
        /// The path as the client sent it; never an empty one.
        path: Option<Bytes>,
    },
    /// TYPE: the representation of files (RFC 959, section 4.1.2). Its parameter is ignored.
    TypeCode,
    /// STRU: the structure of files (RFC 959, section 4.1.2).
    Stru {
        /// The structure.
        structure: StruParam,
    },
    /// MODE: the transfer mode (RFC 959, section 4.1.2).
    Mode {
        /// The mode.
        mode: ModeParam,
    },
    /// HELP: asks for help on the server (RFC 959, section 4.1.3). Its parameter is ignored.
    Help,
    /// NOOP: do nothing (RFC 959, section 4.1.3).
    Noop,
    /// PASV: listen for the data connection (RFC 959, section 4.1.2).
    Pasv,
    /// EPSV: listen for the data connection, over IPv4 or IPv6 (RFC 2428, section 3). Its parameter
    /// is ignored.
    Epsv,
    /// PORT: connect to the client for data (RFC 959, section 4.1.2).
    Port {
        /// The address and port as the client wrote them; not empty.
        addr: String,
    },
    /// RETR: send a file (RFC 959, section 4.1.3).
    Retr {
        /// The file; not empty.
        path: String,
    },
    /// STOR: store a file (RFC 959, section 4.1.3).
    Stor {
        /// The file; not empty.
        path: String,
    },
    /// APPE: append to a file (RFC 959, section 4.1.3).
    Appe {
        /// The file; not empty.
        path: String,
    },
    /// LIST: list a directory for people (RFC 959, section 4.1.3).
    List {
        /// None in a command from `parse`, which drops option words.
        options: Option<String>,
        /// What to list; in a command from `parse` not empty.
        path: Option<String>,
    },
    /// NLST: list the names in a directory (RFC 959, section 4.1.3).
    Nlst {
        /// What to list; never an empty path.
        path: Option<String>,
    },
    /// MLST: asks for the facts of a path (RFC 3659, section 7).
    Mlst {
        /// The path; never an empty one.
        path: Option<String>,
    },
    /// MLSD: list a directory with facts (RFC 3659, section 7).
    Mlsd {
        /// The directory; never an empty path.
        path: Option<String>,
    },
    /// FEAT: list the features beyond RFC 959 (RFC 2389, section 3).
    Feat,
    /// PWD or XPWD: asks for the working directory (RFC 959, section 4.1.3; RFC 1123, section
    /// 4.1.3.1).
    Pwd,
    /// CWD or XCWD: change the working directory (RFC 959, section 4.1.1; RFC 1123, section
    /// 4.1.3.1).
    Cwd {
        /// The directory; not empty.
        path: String,
    },
    /// CDUP: go to the parent directory (RFC 959, section 4.1.1).
    Cdup,
    /// OPTS: set an option (RFC 2389, section 4).
    Opts {
        /// The option.
        option: Opt,
    },
    /// DELE: delete a file (RFC 959, section 4.1.3).
    Dele {
        /// The file; not empty.
        path: String,
    },
    /// RMD: remove a directory (RFC 959, section 4.1.3).
    Rmd {
        /// The directory; not empty.
        path: String,
    },
    /// QUIT or BYE: end the session (RFC 959, section 4.1.1).
    Quit,
    /// MKD or XMKD: make a directory (RFC 959, section 4.1.3; RFC 1123, section 4.1.3.1).
    Mkd {
        /// The directory; not empty.
        path: String,
    },
    /// ALLO: reserve room (RFC 959, section 4.1.3). Its parameter is ignored.
    Allo {},
    /// ABOR: end the transfer that is under way (RFC 959, section 4.1.3).
    Abor,
    /// STOU: store under a name that the server chooses (RFC 959, section 4.1.3).
    Stou,
    /// RNFR: which file is renamed (RFC 959, section 4.1.3).
    Rnfr {
        /// The file; not empty.
        file: String,
    },
    /// RNTO: what it is renamed to (RFC 959, section 4.1.3).
    Rnto {
        /// The new name; not empty.
        file: String,
    },
    /// AUTH: protect the control connection (RFC 2228, section 3; RFC 4217, section 4).
    Auth {
        /// The mechanism.
        protocol: AuthParam,
    },
    /// CCC: go on without protection of the control connection (RFC 2228, section 3).
    Ccc,
    /// PBSZ: the size of protected buffers, always 0 (RFC 2228, section 3; RFC 4217, section 9).
    Pbsz {},
    /// PROT: the protection of the data connection (RFC 2228, section 3).
    Prot {
        /// The level.
        param: ProtParam,
    },
    /// SIZE: asks for the size of a file (RFC 3659, section 4).
    Size {
        /// The file; not empty.
        file: String,
    },
    /// REST: where the next transfer begins (RFC 3659, section 5).
    Rest {
        /// The offset in bytes.
        offset: u64,
    },
    /// MDTM: asks when a file was modified (RFC 3659, section 3).
    Mdtm {
        /// The file; not empty.
        file: String,
    },
    /// SITE MD5: asks for the MD5 sum of a file; of no RFC.
    Md5 {
        /// The file; not empty.
        file: String,
    },
    /// SITE with any other subcommand (RFC 959, section 4.1.3).
    Site {
        /// The subcommand, its ASCII letters in upper case; it may be empty.
        command: String,
        /// What follows the subcommand; it may be empty.
        arguments: String,
    },
    /// A verb of no other variant.
    Other {
        /// The verb, its ASCII letters in upper case; it may be empty.
        command_name: String,
        /// What follows the verb; it may be empty.
        arguments: String,
    },
}

/// A command with a clone of the field.
macro_rules! with_clone {
    ($clone:expr, $field:ident, $command:expr) => {
        match $clone {
            Ok($field) => Ok($command),
            Err(error) => Err(error),
        }
    };
}

impl Command {
    /// A command that means the same, or `AllocError` when out of memory, which leaves this one as
    /// it is. No memory is taken for one without texts or with empty ones, but for a password.
    pub fn clone(&self, alloc: Global) -> Result<Command, AllocError>
        // At `Ok` the new command means the same.
        ensures ok { IfOk result (λ command. command_of command ≡ command_of self.now) }
        // It is out of memory only where the command holds bytes, or is a password.
        ensures memory { OnErr result (0 < held_len (command_of self.now)) }
    {
        // what holds `Bytes` shares them, and parts lack options and the case of a name
        match self {
            Command::User { username } => {
                with_clone!(shared(username), username, Command::User { username })
            }
            Command::Pass { password } => {
                with_clone!(password.clone(), password, Command::Pass { password })
            }
            Command::Acct { account } => {
                with_clone!(shared(account), account, Command::Acct { account })
            }
            Command::Stat { path: Some(path) } => {
                with_clone!(shared(path), path, Command::Stat { path: Some(path) })
            }
            Command::List { options, path } => list(alloc, options, path),
            Command::Site { command, arguments } => site(alloc, command, arguments),
            Command::Other {
                command_name,
                arguments,
            } => other(alloc, command_name, arguments),
            command => command.from_its_parts(alloc),
        }
    }

    /// The command that its parts are.
    fn from_its_parts(&self, alloc: Global) -> Result<Command, AllocError>
        requires { IsItsParts (command_of self.now) }
        ensures ok { IfOk result (λ command. command_of command ≡ command_of self.now) }
        ensures memory { OnErr result (0 < held_len (command_of self.now)) }
    {
        match Command::from_parts(alloc, &self.parts()) {
            Ok(command) => Ok(command),
            Err(_) => Err(AllocError),
        }
    }
}

/// A clone of the bytes, which shares them; of none it takes no memory.
fn shared(bytes: &Bytes) -> Result<Bytes, AllocError>
    ensures ok { IfOk result (λ shared. shared ≡ bytes.now) }
    ensures memory { OnErr result (0 < length bytes.now) }
{
    if bytes.is_empty() {
        return Ok(Bytes::new());
    }
    bytes.clone()
}

/// A clone of the text, if there is one; of an empty one it takes no memory.
fn owned_option(alloc: Global, text: &Option<String>) -> Result<Option<String>, AllocError>
    ensures ok { IfOk result
        (λ owned. option_map string_bytes owned ≡ option_map string_bytes text.now) }
    ensures memory { OnErr result (0 < maybe_len (option_map string_bytes text.now)) }
{
    match text {
        Some(text) => Ok(Some(owned(alloc, text.as_str())?)),
        None => Ok(None),
    }
}

/// LIST with clones of these.
fn list(
    alloc: Global,
    options: &Option<String>,
    path: &Option<String>,
) -> Result<Command, AllocError>
    ensures ok { IfOk result (λ command. command_of command
        ≡ List (option_map string_bytes options.now) (option_map string_bytes path.now)) }
    ensures memory { OnErr result (0 < maybe_len (option_map string_bytes options.now)
        + maybe_len (option_map string_bytes path.now)) }
{
    Ok(Command::List {
        options: owned_option(alloc, options)?,
        path: owned_option(alloc, path)?,
    })
}

/// SITE with clones of these.
fn site(alloc: Global, command: &String, arguments: &String) -> Result<Command, AllocError>
    ensures ok { IfOk result (λ site. command_of site
        ≡ Site (string_bytes command.now) (string_bytes arguments.now)) }
    ensures memory { OnErr result
        (0 < length (string_bytes command.now) + length (string_bytes arguments.now)) }
{
    Ok(Command::Site {
        command: owned(alloc, command.as_str())?,
        arguments: owned(alloc, arguments.as_str())?,
    })
}

/// Another verb with clones of these.
fn other(alloc: Global, command_name: &String, arguments: &String) -> Result<Command, AllocError>
    ensures ok { IfOk result (λ other. command_of other
        ≡ Other (string_bytes command_name.now) (string_bytes arguments.now)) }
    ensures memory { OnErr result
        (0 < length (string_bytes command_name.now) + length (string_bytes arguments.now)) }
{
    Ok(Command::Other {
        command_name: owned(alloc, command_name.as_str())?,
        arguments: owned(alloc, arguments.as_str())?,
    })
}

/// What Debug writes; of PASS one text under all flags, which shows neither the password's bytes
/// nor their length.
impl fmt::Display for Command {
    ghost use Rattle.unftp_control_message.specs.CommandMeaning.{displayed};

    ghost output = { displayed };

    ghost styled_output = { λ command _. displayed command };

    fn fmt<W: fmt::Write>(&self, f: &mut fmt::Formatter<W>) -> fmt::Result {
        match self {
            Command::Pass { .. } => f.write_str("Pass { password: Password { bytes: ******* } }"),
            command => fmt::Debug::fmt(command, f),
        }
    }
}
