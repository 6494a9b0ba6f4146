// What the program's arguments ask for.
ghost use Rattle.std.specs.Prelude.{◌≡◌};
ghost use Rattle.purser.specs.Asked.{asked, asked_alone, asked_by, audit_after, audit_of, is_option};

#[derive(Drop)]
pub enum Command {
    // a report on the book of a file or of standard input
    Report {
        book: Option<String>,
    },
    // the verdict on the payments of a file, for such a book
    Audit {
        payments: String,
        book: Option<String>,
    },
    // an audit without a file of payments
    NoPayments,
    Help,
    Version,
    // an argument that means nothing here: an answer as any, by the definition `asked`
    Unknown(String),
}

// By the first four arguments, if there are any.
pub fn asked_for(
    first: Option<String>,
    second: Option<String>,
    third: Option<String>,
    fourth: Option<String>,
) -> Command
    ensures { result ≡ asked first second third fourth }
{
    match first {
        None => Command::Report { book: None },
        Some(word) if word.as_str() == "--audit" => audit_after(second, third, fourth),
        Some(word) => asked_alone(word, second),
    }
}

// By the words after --audit: a file of payments, a file of the book if there is one, and nothing more.
fn audit_after(payments: Option<String>, book: Option<String>, more: Option<String>) -> Command
    ensures { result ≡ audit_after payments book more }
{
    match payments {
        None => Command::NoPayments,
        Some(payments) if is_option(&payments) => Command::Unknown(payments),
        Some(payments) => audit_of(payments, book, more),
    }
}

// By a file of payments and the words after it.
fn audit_of(payments: String, book: Option<String>, more: Option<String>) -> Command
    ensures { result ≡ audit_of payments book more }
{
    let Some(book) = book else {
        return Command::Audit {
            payments,
            book: None,
        };
    };
    if is_option(&book) {
        return Command::Unknown(book);
    }
    match more {
        Some(word) => Command::Unknown(word),
        None => Command::Audit {
            payments,
            book: Some(book),
        },
    }
}

// By a word that no other may follow.
fn asked_alone(word: String, second: Option<String>) -> Command
    ensures { result ≡ asked_alone word second }
{
    match (asked_by(word), second) {
        (command, None) => command,
        (Command::Unknown(word), _) => Command::Unknown(word),
        (_, Some(second)) => Command::Unknown(second),
    }
}

// By a word that stands alone.
fn asked_by(word: String) -> Command
    ensures { result ≡ asked_by word }
{
    match word.as_str() {
        "--help" => Command::Help,
        "--version" => Command::Version,
        text if is_option(text) => Command::Unknown(word),
        _ => Command::Report { book: Some(word) },
    }
}

// A word that begins with a dash is an option.
fn is_option(word: &str) -> bool
    ensures { result ≡ is_option word.now }
{
    word.starts_with('-')
}
