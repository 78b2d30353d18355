//! Laws about inputs. Each law is the contract of a function with an empty body.
ghost use Rattle.std.specs.Prelude.{◌≡◌, ◌↔◌, ◌∷◌, ◌++◌, [], ℕ, Bool, List, Err, codes, false, true};
ghost use Rattle.std.specs.List.{flat_map, list_any};
ghost use Rattle.mcs_model.specs.TextLines.{as_line};
ghost use Rattle.mcs_lines.specs.LineRequests.{request_of};
ghost use Rattle.mcs_lines.specs.declared.requests.Request.TheVariants.{Begin};
ghost use Rattle.mcs_lines.specs.declared.requests.TextKind.{TextKind};
ghost use Rattle.mcs_lines.specs.declared.requests.TextKind.TheVariants.{Asm, Errors, Map, Wiring};
ghost use Rattle.mcs_shell.specs.declared.texts.TextRefusal.{TextRefusal};
ghost use Rattle.mcs_shell.specs.declared.texts.TextFault.TheVariants.{NoEnd};
ghost use Rattle.mcs_shell.specs.Inputs.{BadText, inputs_of_lines, is_dot_line, input_of_text};
ghost use Rattle.mcs_shell.specs.TextMeanings.{meaning_of_text};
ghost use Rattle.mcs_shell.specs.Transcript.{RequestsNoCommand};

/// Proves that a text ends at a line with a single dot. The line that begins the text, the lines up
/// to the first dot line, and the dot line form one input. The text consists of the lines between
/// the first and the last of these lines, each followed by a line feed. The lines after the dot
/// line are parsed as if they were the first lines of the input. If input ends without a dot line,
/// the text is rejected (`NoEnd`).
pub fn a_text_ends_at_a_dot()
    ensures ended { (whole : Bool) (kind : TextKind) (line : List ℕ) (text rest : List (List ℕ))
        → request_of line ≡ Begin kind → list_any is_dot_line text ≡ false
        → inputs_of_lines whole false (line ∷ (text ++ codes "." ∷ rest))
        ≡ input_of_text kind (flat_map as_line text)
        ∷ inputs_of_lines whole false rest }
    ensures open { (kind : TextKind) (line : List ℕ) (text : List (List ℕ))
        → request_of line ≡ Begin kind → list_any is_dot_line text ≡ false
        → inputs_of_lines true false (line ∷ text) ≡ BadText NoEnd ∷ [] }
{}

/// Proves that `map` requests no command. `map` rejects a text for a reason if and only if `asm`
/// rejects the text for the same reason.
pub fn a_map_requests_no_command()
    ensures asks { RequestsNoCommand Map }
    ensures refused { (text : List ℕ) (why : TextRefusal)
        → (meaning_of_text Map text ≡ Err why) ↔ (meaning_of_text Asm text ≡ Err why) }
{}

/// Proves that `errors`, which reports the errors of a program, requests no command.
pub fn an_error_report_requests_no_command()
    ensures { RequestsNoCommand Errors }
{}

/// Proves that `wiring`, which reports the first error of a board, requests no command.
pub fn a_wiring_report_requests_no_command()
    ensures { RequestsNoCommand Wiring }
{}
