//! The texts that the program prints.

/// The name of the program, before each line on standard error.
pub const NAME: &str = "sdbt_more";

/// How the program is called, in a line for each way.
pub const USAGE: &str = "usage: sdbt_more (nbd | volumes) [--root CELL] FOLDER
       sdbt_more transfer [--from-root CELL] [--to-root CELL] FROM TO
";

/// The help behind the usage. Headings stand alone in capitals, and a line of a list has its term,
/// two spaces or more, and what is said of it.
pub const HELP: &str = "
Serves the device in a folder, which sdbt made there, over standard input and output: to one client
of NBD, or by lines of its volumes. What a committed write or trim deleted stays on the medium,
under keys to which the root record leads no more. Or it moves the device to another folder.

What a client of NBD wrote and trimmed is the device's once a flush was answered, or a disconnect
was served. What wasn't flushed is dropped where the client goes without a disconnect.

A volume is a range of blocks with a name: 1 to 47 of a to z, 0 to 9, _ and -. There are 64 at most,
and block 0 has their table. Once a destroy was answered with a number, the root record leads to no
data of the volume. A bad page of its data doesn't hinder that.

A transfer copies all blocks to TO, commits them there, and then clears the root record of FROM: its
pages stay, and no root record leads to them any more. TO has no device before, or one of the same
size that was never written, or one with the same blocks: then nothing is copied. It may be stopped
at any time and run again: FROM is as it was until TO has all. A stopped copy begins anew, and its
pages stay on TO. For 2^20 blocks it takes 4.5 GB on TO and 330 MB of memory. The device on TO is of
version 1; where that on FROM was of version 2, a line on standard error says so, and sdbt's line
upgrade makes it 2.

Without a word it serves the script on standard input over a device in memory, as sdbt does, and
then moves that device to a second one in memory.

WORDS
  nbd FOLDER   serves the device in this folder to a client of NBD; its files are media, root and
               ledger
  volumes FOLDER  serves lines of its volumes, and writes one reply a line
  --root CELL  before FOLDER: serves one whose root is in the folder CELL, and all else in FOLDER;
               where CELL is tpm:INDEX or tpm:INDEX@DEVICE, in an index of a TPM, as sdbt --help
               says
  transfer FROM TO  moves the device in the folder FROM to the folder TO, and writes one line:
               transferred blocks K commit C; or refused no device where FROM has none, refused not
               empty where TO has another, refused full where TO lacks pages; or bad root or bad
               record ADDR
  --from-root CELL  before FROM: moves one whose root is in CELL
  --to-root CELL  behind that, and before FROM: keeps the root of the new device in CELL
  -h, --help   prints this text
  --version    prints the version

LINES
  create NAME COUNT  makes a volume of so many blocks, which are all zeros
  read NAME N  shows its block N, the first of which is 0, in hex digits, without zeros at its end;
               - stands for zeros alone
  write NAME N HEX  writes block N: 2 to 8,192 hex digits, and zeros behind them
  trim NAME N  makes block N zeros
  destroy NAME  makes the volume none, and what was changed the device's
  commit       makes what was changed the device's

STATUS
  0   the lines were served to their end; or the client disconnected or gave up its options, or its
      input ended between two words
  1   a folder, a file in it, an index or the source of keys could not be made ready, or is in use;
      or FROM and TO have one folder or one index
  2   the words are not as above
  3   the input failed
  4   the output failed
  5   the medium failed, or the store of the root record; with transfer those of FROM
  6   the source of keys failed
  7   the ledger failed
  8   the root record is none that can be served
  9   a page does not hold the record that is wanted there; with nbd the client is told
  10  there is no device; or with nbd too few pages are free for the commit of a disconnect, with
      volumes block 0 has no table, and with transfer TO has another device, or too few free pages
  11  no memory was given
  12  2^32 bytes of lines, or with nbd 2^40 bytes of input, were taken before the end
  13  with transfer: the medium of TO failed, or the store of its root record
  14  the client broke off, or is none of NBD

At each status but 0 standard error says what failed.

EXAMPLE
  mkdir device
  echo 'format 16384 64' | sdbt device
  socat UNIX-LISTEN:disk.sock,fork,max-children=1,mode=600 EXEC:'sdbt_more nbd device',nofork
  nbdcopy --flush --destination-is-zero image nbd+unix:///?socket=disk.sock
  mkdir parted
  echo 'format 16384 64' | sdbt parted
  printf 'create a 100\\nwrite a 0 6869\\ncommit\\ndestroy a\\n' | sdbt_more volumes parted
  mkdir fresh
  sdbt_more transfer parted fresh
";

/// The version of the program.
pub const VERSION: &str = "sdbt_more 0.2.11\n";
