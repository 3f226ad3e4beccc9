//! The bytes of a play's record, of an open play and of finished ones. docs/FORMATS.md has them.

ghost use Rattle.std.specs.Prelude.{◌≡◌, ◌≤◌, ◌+◌, ◌^◌, ◌&&◌, IsTrue, true, length, nat_le, nat_lt};
ghost use Rattle.std.specs.List.{list_all};
ghost use Rattle.gd_base.specs.Histories.Numbers.{game_number as number_of_game};
ghost use Rattle.gd_base.specs.Payloads.Bytes.{choice_code, play_bytes};
ghost use Rattle.gd_base.specs.Payloads.Reading.{game_of, choice_of, play_read};
ghost use Rattle.gd_base.specs.Payloads.Recorded.{is_recorded_play as is_recorded};
ghost use Rattle.gd_base.specs.Payloads.ViewRules.{is_choice_value, all_true};
ghost use Rattle.gd_recall.specs.PlayWidths.{play_widths, number_widths};

use crate::list_record::ListRecord;
use crate::numbers::{
    eight_bytes_at, four_bytes_at, put_four_bytes, put_numbers, sixteen_numbers_at,
};
use gd_base::{Game, MOST_HOLD, MOST_PICK, MOST_TURNS, PLAY_LEN, PlayRecord};

/// The game of a number; one that no game has is read as poker.
fn game_of_number(n: u8) -> Game
    ensures { result ≡ game_of n }
{
    match n {
        1 => Game::Reels,
        _ => Game::Poker,
    }
}

/// The choice of a code: none for 0, a pick up to 31, and then a hold by its mask.
fn choice_of_code(code: u8) -> Option<u8>
    ensures { result ≡ choice_of code }
{
    match code {
        0 => None,
        1..=31 => Some(code),
        _ => Some(code - 32),
    }
}

/// The record of a play at a place, whatever bytes stand there.
pub fn read_play(bytes: &[u8], place: usize) -> PlayRecord
    requires { place + PLAY_LEN ≤ length bytes.now }
    ensures { result ≡ play_read place bytes.now }
{
    PlayRecord {
        number: eight_bytes_at(bytes, place),
        index: eight_bytes_at(bytes, place + 8),
        words: sixteen_numbers_at(bytes, place + 16),
        game: game_of_number(bytes[place + 144]),
        bet: bytes[place + 145],
        wager: four_bytes_at(bytes, place + 146),
        choice: choice_of_code(bytes[place + 150]),
        turns: bytes[place + 151],
        colours: bytes[place + 152],
        win: eight_bytes_at(bytes, place + 154),
        before: eight_bytes_at(bytes, place + 162),
        after: eight_bytes_at(bytes, place + 170),
        place: eight_bytes_at(bytes, place + 178),
    }
}

/// The number of a game.
fn game_number(game: Game) -> u8
    ensures { result ≡ number_of_game game }
{
    match game {
        Game::Reels => 1,
        Game::Poker => 2,
    }
}

/// The code of a choice.
fn choice_number(game: Game, choice: Option<u8>) -> u8
    requires { IsTrue (is_choice_value game choice) }
    ensures { result ≡ choice_code game choice }
{
    match (game, choice) {
        (_, None) => 0,
        (Game::Reels, Some(door)) => door,
        (Game::Poker, Some(mask)) => 32 + mask,
    }
}

/// The bytes of a play's record. Its choice is one of its game.
pub fn play_image(play: &PlayRecord) -> [u8; PLAY_LEN]
    requires { IsTrue (is_choice_value play.now.game play.now.choice) }
    ensures { result ≡ play_bytes play.now }
{
    let mut image = [0; PLAY_LEN];
    put_numbers(&mut image, 0, &[play.number, play.index]);
    put_numbers(&mut image, 16, &play.words);
    image[144] = game_number(play.game);
    image[145] = play.bet;
    put_four_bytes(&mut image, 146, play.wager);
    image[150] = choice_number(play.game, play.choice);
    image[151] = play.turns;
    image[152] = play.colours;
    put_numbers(
        &mut image,
        154,
        &[play.win, play.before, play.after, play.place],
    );
    image
}

/// What the type of words makes true.
fn words_fit(words: &[u64])
    ensures { list_all (λ w. nat_lt w (2 ^ 64)) words.now ≡ true }
{}

/// What the types of a play's numbers make true.
fn numbers_fit(number: u64, index: u64, wager: u32, win: u64, before: u64, after: u64)
    ensures { all_true (number_widths number index wager win before after) ≡ true }
{}

/// What the types in a play's record make true.
fn play_fits(play: &PlayRecord)
    ensures { all_true (play_widths play.now) ≡ true }
{
    words_fit(&play.words);
    numbers_fit(
        play.number,
        play.index,
        play.wager,
        play.win,
        play.before,
        play.after,
    );
}

/// Whether a choice is none, or one of its game.
fn is_choice(game: Game, choice: Option<u8>) -> bool
    ensures { result ≡ is_choice_value game choice }
{
    match (game, choice) {
        (_, None) => true,
        (Game::Reels, Some(door)) => door >= 1 && door <= MOST_PICK,
        (Game::Poker, Some(mask)) => mask <= MOST_HOLD,
    }
}

/// Whether there are no more turns than there can be, and colours of these turns alone.
fn are_turns(turns: u8, colours: u8) -> bool
    ensures { result ≡ (nat_le turns MOST_TURNS && nat_lt colours (2 ^ turns)) }
{
    turns <= MOST_TURNS && u32::from(colours) < 1u32 << turns
}

/// Whether the record of a play keeps its rules but the one on its bet: its choice is one of its game, and so are its
/// turns and their colours.
pub fn is_recorded_play(play: &PlayRecord) -> bool
    ensures { result ≡ is_recorded play.now }
{
    play_fits(play);
    is_choice(play.game, play.choice) && are_turns(play.turns, play.colours)
}

impl ListRecord for PlayRecord {
    ghost use Rattle.gd_base.specs.declared.layout.TheConstants.{PLAY_LEN};

    ghost LEN = { PLAY_LEN };

    ghost bytes_of = { play_bytes };

    ghost record_of = { play_read 0 };

    ghost place_of = { λ p. p.place };

    ghost test = { is_recorded };

    const LEN: usize = PLAY_LEN;

    fn write(&self, into: &mut [u8]) {
        into.copy_from_slice(&play_image(self));
    }

    fn read(bytes: &[u8]) -> Self {
        read_play(bytes, 0)
    }

    fn place(&self) -> u64 {
        self.place
    }

    fn is_recorded(&self) -> bool {
        is_recorded_play(self)
    }
}
