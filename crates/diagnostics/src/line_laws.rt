//! A proof about the lines that print faults and warnings. The function here does nothing: its
//! contract states what is proved.

ghost use Rattle.diagnostics.specs.PrintedLines.{EachFaultIsALine, EachWarningIsALine};

/// Proves that each fault and each warning is printed on a line of its own. The name of the file
/// and the messages must not have newlines. The messages of [`faults_of`](crate::faults_of) and
/// [`warnings_of`](crate::warnings_of) have none.
pub fn each_message_is_a_line()
    ensures faults { EachFaultIsALine }
    ensures warnings { EachWarningIsALine }
{}
