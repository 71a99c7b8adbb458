//! Laws of rehearsals.
ghost use Rattle.std.specs.Prelude.{◌<◌, ◌≡◌, ◌≤◌, All, List, None, Some, length, ℕ};
ghost use Rattle.ps_time.specs.Numbers.{greatest_moment};
ghost use Rattle.host_model.specs.Conditions.{IsConfig, IsInput};
ghost use Rattle.api_peer.specs.Replied.{IsReplyTo};
ghost use Rattle.api_peer.specs.Widths.{HasWidths};
ghost use Rattle.rehearsal_script.specs.Lawful.{AreLawfulHosts, IsLawfulLine};
ghost use Rattle.rehearsal_script.specs.declared.script.ScriptHost.{ScriptHost};
ghost use Rattle.rehearsal_script.specs.declared.script.ScriptLine.{ScriptLine};
ghost use Rattle.world_law.specs.Events.{brings};
ghost use Rattle.world_law.specs.Laws.{Safe};
ghost use Rattle.world_law.specs.World.{Message};
ghost use Rattle.rehearsal_model.specs.Moves.{Outcomes, receiver, reply_to};
ghost use Rattle.rehearsal_model.specs.Reaching.{IsKnown, IsScriptPeer, Reaches};
ghost use Rattle.rehearsal_model.specs.Plays.{IsPlay, MayLine};
ghost use Rattle.rehearsal_model.specs.Simulations.{Play, UnsyncedKept, first_play, play_line};
ghost use Rattle.rehearsal_model.specs.Rehearsal.{Show, seen};
ghost use Rattle.rehearsal_model.specs.Seen.{config_at, message};

/// A law: each host has a configuration that a host may have, and its peers are those that hosts of a script know.
pub fn law_config()
    ensures config { (hosts : List ScriptHost) (s : Show) (place : ℕ) → AreLawfulHosts hosts → Reaches hosts s → place < length hosts → IsConfig (config_at (seen hosts s) place) }
    ensures peers { (hosts : List ScriptHost) (s : Show) (place : ℕ) → AreLawfulHosts hosts → Reaches hosts s → place < length hosts → All IsScriptPeer (config_at (seen hosts s) place).peers }
{}

/// A law: each message that was sent is for a host of the script, and asks what that host may be asked. An order comes to a host that
/// knows the one whose order it is, and takes it for what it means.
pub fn law_message()
    ensures host { (hosts : List ScriptHost) (s : Show) (n : ℕ) (l : Message) → AreLawfulHosts hosts → Reaches hosts s → message (seen hosts s) n ≡ Some l → receiver hosts l < length hosts }
    ensures input { (hosts : List ScriptHost) (s : Show) (n : ℕ) (l : Message) → AreLawfulHosts hosts → Reaches hosts s → message (seen hosts s) n ≡ Some l → IsInput (config_at (seen hosts s) (receiver hosts l)) (brings l l.reply) }
    ensures known { (hosts : List ScriptHost) (s : Show) (n : ℕ) (l : Message) → AreLawfulHosts hosts → Reaches hosts s → message (seen hosts s) n ≡ Some l → l.reply ≡ None → IsKnown (config_at (seen hosts s) (receiver hosts l)) l }
{}

/// A law: what is replied to an order that comes is a reply to that order, which the host that ordered hears as it is meant.
pub fn law_replied()
    ensures { (hosts : List ScriptHost) (s : Show) (n : ℕ) (l : Message) (clock : ℕ) → AreLawfulHosts hosts → Reaches hosts s → message (seen hosts s) n ≡ Some l → l.reply ≡ None → clock ≤ greatest_moment
        → HasWidths (reply_to hosts (seen hosts s) clock l) → IsReplyTo l.order.body (reply_to hosts (seen hosts s) clock l) }
{}

/// A law: a rehearsal goes on with each line, and is safe, whichever way it turns out what faults of disks left.
pub fn law_played()
    ensures first { (hosts : List ScriptHost) → AreLawfulHosts hosts → IsPlay hosts (first_play hosts) }
    ensures line { (comes : Outcomes) (hosts : List ScriptHost) (p : Play) (line : ScriptLine) → AreLawfulHosts hosts → IsPlay hosts p → IsLawfulLine (length hosts) line → MayLine comes hosts p.simulation line → IsPlay hosts (play_line comes hosts p line) }
    ensures safe { (hosts : List ScriptHost) (p : Play) (turns : UnsyncedKept) → AreLawfulHosts hosts → IsPlay hosts p → Safe (p.worlds turns) }
{}
