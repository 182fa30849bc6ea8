//! The texts that the program shows of itself.

/// What `--help` shows: every shape of the words and every status.
pub const HELP: &str = "usage:
  sledge invoke MODULE BODY BUDGET
      runs the WebAssembly module in the file MODULE once on the bytes of the
      file BODY, for at most BUDGET units (0 to 1099511627776), and writes the
      HTTP reply to the standard output
  sledge check CONFIG
      reads the configuration in the file CONFIG and the modules of its routes,
      and writes how many tenants and routes there are
  sledge replay CONFIG RECORDING
      answers the requests in the file RECORDING as the configuration says, and
      writes the replies of each connection to the standard output
  sledge soak START COUNT
      makes COUNT requests (1 to 4096) from the number START (below 2^64),
      answers them, and writes the summary to the standard output
  sledge serve CONFIG
      answers requests at the ports of the configuration, until it is ended
  sledge --help
      shows this text
  sledge --version
      shows the name and the version

A refusal is one line on the standard error. The exit status is
  0   done: for invoke the standard error has `units U`, what the run cost, and
      for replay `requests R admitted A started S turns T units U`
  2   `usage`: the words have none of these shapes, or a number is not 1 to 20
      digits in range
  3   `read NAME`: the file NAME cannot be read
  4   `config N`: the configuration is refused
  5   `module N ROUTE PLACE`: the module of a route is refused, which is
      counted from 0; ROUTE is 0 for invoke
  6   `recording N`: the recording, or the body of an invoke, is refused
  7   an output could not be written
  8   `memory`: memory ran out
  9   `thread`: a thread could not be started
  10  `door`: a listener failed
The file docs/FORMATS.md says what each number N means, and each PLACE.
";

/// What `--version` shows.
pub const VERSION: &str = "Cavundel 0.1.0\n";

/// The content type of a reply whose route names none.
pub const OCTET_STREAM: &str = "application/octet-stream";
