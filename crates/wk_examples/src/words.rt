//! What the words of a command line come to.
ghost use Rattle.std.specs.Prelude.{◌≡◌, ◌∷◌, [], codes, true};
ghost use Rattle.wk_words.specs.Verdicts.{verdict, runs, refused, shows_help, shows_version};
ghost use Rattle.wk_words.specs.declared.commands.Command.TheVariants.{Script, Serve, Jobs, Check, Generate, Report, Replica};
ghost use Rattle.wk_report_rules.specs.declared.Report.TheVariants.{DoubleRedirects};
ghost use Rattle.wk_examples.specs.CommandLines.{bare};

/// Words that ask for something: an option stands before the command or behind it, and its value behind it or behind `=`.
pub fn asking()
    ensures plain { verdict (codes "wiki" ∷ codes "script" ∷ []) ≡ runs (bare Script) }
    ensures option { verdict (codes "wiki" ∷ codes "gen" ∷ codes "--pages" ∷ codes "7" ∷ []) ≡ runs (record (bare Generate) { pages = 7 }) }
    ensures behind_a_sign { verdict (codes "wiki" ∷ codes "--number=0" ∷ codes "gen" ∷ []) ≡ runs (record (bare Generate) { number = 0 }) }
    ensures serving { verdict (codes "wiki" ∷ codes "serve" ∷ codes "--workers=2" ∷ []) ≡ runs (record (bare Serve) { workers = 2 }) }
    ensures greatest { verdict (codes "wiki" ∷ codes "jobs" ∷ codes "--procs" ∷ codes "64" ∷ []) ≡ runs (record (bare Jobs) { procs = 64 }) }
    ensures without_effect { verdict (codes "wiki" ∷ codes "check" ∷ codes "--listen" ∷ codes "" ∷ []) ≡ runs (record (bare Check) { listen = [] }) }
    ensures reporting { verdict (codes "wiki" ∷ codes "report" ∷ codes "--report" ∷ codes "doubleredirects" ∷ codes "--most=1" ∷ []) ≡ runs (record (bare Report) { report = DoubleRedirects; most = 1 }) }
    ensures flag { verdict (codes "wiki" ∷ codes "--feed" ∷ codes "serve" ∷ []) ≡ runs (record (bare Serve) { feed = true }) }
    ensures following { verdict (codes "wiki" ∷ codes "replica" ∷ codes "--workers" ∷ codes "1" ∷ []) ≡ runs (record (bare Replica) { workers = 1 }) }
    ensures flag_elsewhere { verdict (codes "wiki" ∷ codes "check" ∷ codes "--feed" ∷ []) ≡ runs (record (bare Check) { feed = true }) }
{}

/// Words that are refused.
pub fn refusing()
    ensures nothing { verdict (codes "wiki" ∷ []) ≡ refused }
    ensures no_such_command { verdict (codes "wiki" ∷ codes "server" ∷ []) ≡ refused }
    ensures no_such_replica { verdict (codes "wiki" ∷ codes "replicas" ∷ []) ≡ refused }
    ensures two_commands { verdict (codes "wiki" ∷ codes "gen" ∷ codes "jobs" ∷ []) ≡ refused }
    ensures twice { verdict (codes "wiki" ∷ codes "gen" ∷ codes "--pages=7" ∷ codes "--pages=7" ∷ []) ≡ refused }
    ensures leading_zero { verdict (codes "wiki" ∷ codes "gen" ∷ codes "--pages=07" ∷ []) ≡ refused }
    ensures plus { verdict (codes "wiki" ∷ codes "gen" ∷ codes "--pages=+7" ∷ []) ≡ refused }
    ensures too_small { verdict (codes "wiki" ∷ codes "gen" ∷ codes "--pages=0" ∷ []) ≡ refused }
    ensures too_large { verdict (codes "wiki" ∷ codes "jobs" ∷ codes "--procs" ∷ codes "65" ∷ []) ≡ refused }
    ensures no_value { verdict (codes "wiki" ∷ codes "gen" ∷ codes "--pages" ∷ []) ≡ refused }
    ensures unknown_report { verdict (codes "wiki" ∷ codes "report" ∷ codes "--report=redirects" ∷ []) ≡ refused }
    ensures flag_twice { verdict (codes "wiki" ∷ codes "serve" ∷ codes "--feed" ∷ codes "--feed" ∷ []) ≡ refused }
    ensures flag_with_a_value { verdict (codes "wiki" ∷ codes "serve" ∷ codes "--feed=true" ∷ []) ≡ refused }
    ensures unknown_option { verdict (codes "wiki" ∷ codes "gen" ∷ codes "--page=7" ∷ []) ≡ refused }
{}

/// Help and the version are shown where nothing is wrong before them.
pub fn showing()
    ensures help { verdict (codes "wiki" ∷ codes "--help" ∷ []) ≡ shows_help }
    ensures version { verdict (codes "wiki" ∷ codes "-V" ∷ []) ≡ shows_version }
    ensures behind_any_command { verdict (codes "wiki" ∷ codes "serve" ∷ codes "-h" ∷ []) ≡ shows_help }
    ensures before_a_fault { verdict (codes "wiki" ∷ codes "--help" ∷ codes "--page=7" ∷ []) ≡ shows_help }
    ensures behind_a_fault { verdict (codes "wiki" ∷ codes "--pages=0" ∷ codes "--help" ∷ []) ≡ refused }
{}
